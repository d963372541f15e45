// The roots of an affine polynomial (docs/RULES.md section 3.6): terms only at z^(2^i), i below the field's degree m,
// and a constant. Without the constant it is additive, so its roots solve a system over the two values 0 and 1: m rows
// of m + 1 bits, a row for each digit of the result, a column for each digit of the root and one for the constant.
// Elimination takes the pivot of each row at its lowest column, and sweeps a vector for each column along: those that
// are left are one root, marked by the digit 2^m, and a reduced basis of the differences between roots. Doubling lists
// the roots ascending; no element is tried.
#![tactic(auto)]

ghost use Rattle.std.specs.Prelude.{◌≡◌};
ghost use Rattle.refusals.specs.Admitting.{Admits};
ghost use Rattle.find_affine.specs.Calls.{affine_tests, Spans, Spannable, SpannedOut};

use field::rows::{row_of, size_of};
use input::WIDEST;
use refusals::Refusal;
use slices::all_below;

pub mod images; // the value of an affine polynomial, and the columns of the system
pub mod elimination; // the rows of the system, and the vectors that are left
pub mod listing; // the roots from one of them and a basis, ascending

// The columns of the system: a digit of the root each, and the constant.
pub const COLUMNS: usize = WIDEST + 1;

// The roots that there are: the dimension k, and their number 2^k.
#[derive(Clone, Copy, Debug, PartialEq, Eq)]
pub struct Space {
    pub dimension: u16,
    pub count: u16,
}

// Refusals 1, 20, 4 and 7, of the coefficients, the constant and the lent slots.
fn admit(m: u16, coeffs: &[u16], constant: u16, room: usize) -> Result<(), Refusal>
    ensures { Admits (affine_tests m coeffs.now constant room) result }
{
    let row = row_of(m).ok_or(Refusal::Field)?;
    if coeffs.len() != m as usize {
        return Err(Refusal::Count);
    }
    if !all_below(coeffs, row.size) {
        return Err(Refusal::Element);
    }
    if row.size <= constant {
        return Err(Refusal::Element);
    }
    if room < row.size as usize {
        return Err(Refusal::Room);
    }
    Ok(())
}

// The roots of what was let in.
fn span(m: u16, coeffs: &[u16], constant: u16, roots: &mut [u16]) -> Option<Space>
    requires { Spannable m coeffs.now constant roots.old }
    ensures { SpannedOut m coeffs.now constant roots.old result roots.new }
{
    let n = m as usize;
    let columns = images::images(m, coeffs, constant);
    let vectors = elimination::kernel(n, elimination::system(columns), elimination::units(n));
    let last = vectors[n];
    if last == 0 {
        return None;
    }
    let count = listing::list(n, &vectors, last ^ size_of(m), roots);
    Some(Space {
        dimension: listing::dimension(n, &vectors),
        count,
    })
}

// The roots of the affine polynomial with these coefficients, that of z^(2^i) at place i, and this constant: ascending
// at the front of the list. None where there is no root.
pub fn affine(
    m: u16,
    coeffs: &[u16],
    constant: u16,
    roots: &mut [u16],
) -> Result<Option<Space>, Refusal>
    ensures { Spans m coeffs.now constant roots.old result roots.new }
{
    admit(m, coeffs, constant, roots.len())?;
    Ok(span(m, coeffs, constant, roots))
}
