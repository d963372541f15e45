// Beside each root its multiplicity (docs/RULES.md section 3.3): the largest e for which (z + r)^e divides the
// polynomial. Where there are as many roots as the degree each is simple, and nothing is divided. Otherwise z + r is
// taken out by division (Ruffini), root after root, as often as the value there is 0.
#![tactic(auto)]

ghost use Rattle.std.specs.Prelude.{◌≡◌, ◌≤◌, length, replicate};
ghost use Rattle.algebra.specs.Multiplicity.{multiplicities_in};
ghost use Rattle.field.specs.Field.{G, multiplicities_at};
ghost use Rattle.slices.specs.Lists.{copied};
ghost use Rattle.find_multiplicities.specs.Counting.{Countable, Removable, Removed, Usable};

use field::tables::Tables;
use field_tables::constants::tables_of;
use input::COEFFICIENTS;
use poly::division::divide;
use poly::monic::top;
use poly::values::evaluate;

// Writes 1 to the first n slots.
fn fill_ones(n: usize, mults: &mut [u16])
    requires { n ≤ length mults.old }
    ensures { mults.new ≡ copied (replicate n 1) mults.old }
{
    mults[..n].fill(1);
}

// Takes z + r out of f as often as it divides f, and returns how often. What is left stands in f from that place on.
fn take_out(tables: &Tables, r: u16, f: &mut [u16]) -> usize
    requires { Removable tables.now.degree r f.old }
    ensures { Removed tables.now.degree r f.old result f.new }
{
    let row = [tables.logs[r as usize]];
    for e in 0..f.len() {
        if evaluate(tables, &f[e..], r) != 0 {
            return e;
        }
        divide(tables, &row, &mut f[e..]);
    }
    f.len()
}

// Counts how often z + r can be taken out, for each of the roots in turn. What stands in f is used up.
fn count_each(tables: &Tables, roots: &[u16], f: &mut [u16], mults: &mut [u16])
    requires { Usable tables.now.degree roots.now f.old mults.old }
    ensures { mults.new ≡ copied (multiplicities_in (G tables.now.degree) f.old roots.now) mults.old }
{
    let mut at = 0;
    for (i, root) in roots.iter().enumerate() {
        let e = take_out(tables, *root, &mut f[at..]);
        mults[i] = e as u16;
        at += e;
    }
}

// The multiplicities over the field's tables, by division of a copy.
pub fn multiplicities_lent(tables: &Tables, coeffs: &[u16], roots: &[u16], mults: &mut [u16])
    requires { Countable tables.now.degree coeffs.now roots.now mults.old }
    ensures { mults.new ≡ copied (multiplicities_at tables.now.degree coeffs.now) mults.old }
{
    let mut work = [0u16; COEFFICIENTS];
    let n = coeffs.len();
    slices::copy(coeffs, &mut work);
    count_each(tables, roots, &mut work[..n], mults);
}

// Writes the multiplicity of each root of an accepted polynomial to the front of mults, in the order of its roots.
pub fn multiplicities_in(m: u16, coeffs: &[u16], roots: &[u16], mults: &mut [u16])
    requires { Countable m coeffs.now roots.now mults.old }
    ensures { mults.new ≡ copied (multiplicities_at m coeffs.now) mults.old }
{
    let n = roots.len();
    if n + 1 == top(coeffs) {
        fill_ones(n, mults);
        return;
    }
    if n == 0 {
        return;
    }
    multiplicities_lent(&tables_of(m), coeffs, roots, mults);
}
