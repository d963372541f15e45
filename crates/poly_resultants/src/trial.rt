// The end of a chain of maps: the numbers that are left are tried, four in a row, so that their chains of table loads
// overlap.
ghost use Rattle.std.specs.Prelude.{[], ◌+◌, ◌<◌, length};
ghost use Rattle.poly_resultants.specs.Levels.{Noted, Tries, Tried, Fours, Blocks, Levelled};

use field::tables::Tables;
use poly::values::{evaluate, evaluate_four};

// Puts the element x behind the first n elements of out where its value v is 0. Returns how many there are then.
fn note(v: u16, x: u16, out: &mut [u16], n: usize) -> usize
    requires { n < length out.old }
    ensures { Noted v x n out.old result out.new }
{
    if v == 0 {
        out[n] = x;
        return n + 1;
    }
    n
}

// Tries the first four elements.
fn try_first(tables: &Tables, f: &[u16], out: &mut [u16]) -> usize
    requires { Tries tables.now.degree f.now out.old }
    ensures { Tried tables.now.degree f.now out.old 4 result out.new }
{
    let mut n = 0;
    for x in 0..4 {
        let v = evaluate(tables, f, x);
        n = note(v, x, out, n);
    }
    n
}

// Tries x, x + 1, x + 2 and x + 3, where the n roots below x stand at the front of out. Returns how many there are
// then.
fn try_four(tables: &Tables, f: &[u16], x: u16, out: &mut [u16], n: usize) -> usize
    requires { Blocks tables.now.degree f.now x out.old n }
    ensures { Tried tables.now.degree f.now out.old (x + 4) result out.new }
{
    let v = evaluate_four(tables, f, x);
    let i = note(v[0], x, out, n);
    let j = note(v[1], x + 1, out, i);
    let k = note(v[2], x + 2, out, j);
    note(v[3], x + 3, out, k)
}

// Writes the roots of f below end to the front of out. Returns how many there are.
pub fn tried(tables: &Tables, end: u16, f: &[u16], out: &mut [u16]) -> usize
    requires { let m = tables.now.degree in Tries m f.now out.old × Fours m end }
    ensures { Levelled tables.now.degree [] end f.now result out.new }
{
    let mut n = try_first(tables, f, out);
    for x in (4..end).step_by(4) {
        n = try_four(tables, f, x, out, n);
    }
    n
}
