// Roots by resultants as C calls them, to be tested and counted. Not part of the product's face: it asks what the
// routine asks, and the C side sees to it.
#![tactic(auto)]

ghost use Rattle.std.specs.Prelude.{◌≤◌, length};
ghost use Rattle.input.specs.Limit.{limit};
ghost use Rattle.input.specs.Polynomials.{PolynomialIn};
ghost use Rattle.find_search.specs.Searching.{SearchedOut};

use find_resultants::find_in;

// What C lends to be read, and to be written: a pointer, then a count.
type Read<'a> = &'a [u16];

type Written<'a> = &'a mut [u16];

// Lists the roots of f in the field of degree m at the front of roots, ascending. Returns how many there are.
#[unsafe(no_mangle)]
pub extern "C" fn resultants_find(m: u16, f: Read, roots: Written) -> u16
    requires { PolynomialIn m f.now × (limit ≤ length roots.old) }
    ensures { SearchedOut m f.now roots.old result roots.new }
{
    find_in(m, f, roots)
}
