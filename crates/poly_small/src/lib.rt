// The roots of polynomials of degree at most 3 over a known field, without trying the elements. A quadratic is solved
// by the half-table. Of a cubic three roots are guessed and tried; where that fails, its part that splits is taken and
// parted by traces into degrees 1 and 2. No polynomial need split, and roots may repeat: each is listed once.
#![tactic(auto)]

ghost use Rattle.poly_small.specs.Roots.{SmallSolvable, RootsOut};

use crate::checked::guessed_roots;
use crate::low::low_roots;
use crate::parting::cubic_roots;
use field::tables::Tables;

pub mod checked; // degrees 3 and 4, by a guess that is tried
pub mod guess; // the guesses
pub mod low; // degrees 0 to 2
pub mod parting; // degree 3, by traces
pub mod planes; // what guesses are made of

// Writes the roots of the monic polynomial with the low coefficients p, at most 3 of them, to the front of out, each
// once. Returns how many there are.
pub fn small_roots(tables: &Tables, halves: &[u16], p: &[u16], out: &mut [u16]) -> usize
    requires { SmallSolvable tables.now.degree halves.now p.now out.old }
    ensures { RootsOut tables.now.degree p.now result out.new }
{
    if p.len() < 3 {
        return low_roots(tables.degree, halves, p, out);
    }
    match guessed_roots(tables, p, out) {
        Some(n) => n,
        None => cubic_roots(tables, halves, p, out),
    }
}
