// All roots by successive resultants (C. Petit, 2014): a third way beside the trace engine and the plain search, with
// the plain search's contract. A polynomial goes up a chain of maps y = x^2 + b x; each halves the elements that can
// still be roots, and the few that are left are tried; on the way down each root y gives the roots x above it. Nothing
// has to split, and no polynomial is divided.
#![tactic(auto)]

ghost use Rattle.std.specs.Prelude.{◌≡◌, true, ◌≤◌, length};
ghost use Rattle.field.specs.Rows.{known};
ghost use Rattle.input.specs.Limit.{limit};
ghost use Rattle.input.specs.Polynomials.{PolynomialIn};
ghost use Rattle.find_search.specs.Searching.{SearchedOut};
ghost use Rattle.poly_resultants.specs.Chains.{Chained};

use field::tables::Tables;
use field_tables::constants::tables_of;
use input::COEFFICIENTS;
use poly::monic::top;
use poly_resultants::constants::{CHAIN4, CHAIN8, CHAIN11, END4, END8, END11};
use poly_resultants::levels::{ROOM, level};

// The chain of maps of the known field of degree m, and the end that the numbers it leaves are below.
fn chain_of(m: u16) -> (&'static [u16], u16)
    requires { known m ≡ true }
    ensures { Chained m result.0.now result.1 }
{
    match m {
        4 => (&CHAIN4, END4),
        8 => (&CHAIN8, END8),
        _ => (&CHAIN11, END11),
    }
}

// Lists every element at which f is 0 at the front of the roots, ascending. Returns how many there are.
fn find_lent(tables: &Tables, f: &[u16], roots: &mut [u16]) -> u16
    requires { PolynomialIn tables.now.degree f.now × (limit ≤ length roots.old) }
    ensures { SearchedOut tables.now.degree f.now roots.old result roots.new }
{
    let j = top(f);
    if j < 2 {
        return 0;
    }
    let (chain, end) = chain_of(tables.degree);
    let mut g = [0; COEFFICIENTS];
    slices::copy(&f[..j], &mut g);
    let mut xs = [0; ROOM];
    let k = level(tables, chain, end, &mut g[..j], &mut xs);
    slices::merge(roots, 0, &xs[..k]) as u16
}

// The roots of an accepted polynomial, over its field's tables.
pub fn find_in(m: u16, f: &[u16], roots: &mut [u16]) -> u16
    requires { PolynomialIn m f.now × (limit ≤ length roots.old) }
    ensures { SearchedOut m f.now roots.old result roots.new }
{
    find_lent(&tables_of(m), f, roots)
}
