// Degrees 3 and 4 without traces: a guess whose numbers are tried. A polynomial of degree d has at most d roots, so
// that d ascending numbers at which it is 0 are all of them, wherever they came from. Where a guess fails, who asked
// goes another way: a polynomial need not split.
ghost use Rattle.std.specs.Prelude.{◌≡◌, true, ◌≤◌, length, IfSome};
ghost use Rattle.field.specs.Field.{roots_at};
ghost use Rattle.poly_small.specs.Guessing.{Triable, Guessable, GuessedIn};

use crate::guess::{four_guess, three_guess};
use field::tables::Tables;
use poly::values::evaluate;

// Are the numbers xs, ascending, roots of the monic polynomial f, which has as many degrees? Then they are all.
fn all_roots(tables: &Tables, f: &[u16], xs: &[u16]) -> bool
    requires { Triable tables.now.degree f.now xs.now }
    ensures { result ≡ true → roots_at tables.now.degree f.now ≡ xs.now }
{
    let mut bound = tables.logs.len();
    for i in (0..xs.len()).rev() {
        let x = xs[i];
        if x as usize >= bound {
            return false;
        }
        if evaluate(tables, f, x) != 0 {
            return false;
        }
        bound = x as usize;
    }
    true
}

// Writes the numbers xs to the front of out if they are all the roots of the monic polynomial with the low
// coefficients p, which has as many degrees. Returns how many they are then.
fn checked_roots(tables: &Tables, p: &[u16], xs: &[u16], out: &mut [u16]) -> Option<usize>
    requires { Guessable tables.now.degree p.now out.old
        × (length p.now ≡ length xs.now)
        × (length p.now ≤ 4) }
    ensures { IfSome result (GuessedIn tables.now.degree p.now out.new) }
{
    let n = p.len();
    let mut f = [1u16; 5];
    f[..n].copy_from_slice(p);
    if !all_roots(tables, &f[..n + 1], xs) {
        return None;
    }
    out[..n].copy_from_slice(xs);
    Some(n)
}

// Writes the roots of the monic polynomial with the low coefficients p to the front of out, ascending, if it is of
// degree 3 or 4 and a guess finds as many. Returns how many there are then.
pub fn guessed_roots(tables: &Tables, p: &[u16], out: &mut [u16]) -> Option<usize>
    requires { Guessable tables.now.degree p.now out.old }
    ensures { IfSome result (GuessedIn tables.now.degree p.now out.new) }
{
    match p {
        [c, b, a] => {
            let xs = three_guess(tables.degree, tables.logs, tables.antilogs, *a, *b, *c);
            checked_roots(tables, p, &xs, out)
        }
        [d, c, b, a] => {
            let xs = four_guess(tables.degree, tables.logs, tables.antilogs, *a, *b, *c, *d);
            checked_roots(tables, p, &xs, out)
        }
        _ => None,
    }
}
