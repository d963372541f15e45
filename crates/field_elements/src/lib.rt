// The public element calls: product, inverse, position, quadratic (docs/RULES.md section 2). Each answers every input.
#![tactic(auto)]

ghost use Rattle.field_elements.specs.Calls.{TellsProduct, TellsInverse, TellsPosition, TellsQuadratic};
ghost use Rattle.field_elements.specs.Calls.{AdmitsRow, pair_tests, nonzero_tests, position_tests};

use field::rows::{Row, row_of};
use field::solver::Quadratic;
use field_tables::field_types::{inverse_in, position_in, product_in, roots_in};
use refusals::Refusal;

pub mod places; // positions of field 11 without a table

// An element of a field by its number, or a number that may be none.
pub type Element = u16;

// The tests of the calls on two elements, and the field's row.
fn admit_pair(m: u16, a: Element, b: Element) -> Result<Row, Refusal>
    ensures { AdmitsRow (pair_tests m a b) m result }
{
    let row = row_of(m).ok_or(Refusal::Field)?;
    if row.size <= a {
        return Err(Refusal::Element);
    }
    if row.size <= b {
        return Err(Refusal::Element);
    }
    Ok(row)
}

// The tests of the calls on one element that must not be 0: those of a pair of it, and one behind them.
fn admit_nonzero(m: u16, a: Element) -> Result<Row, Refusal>
    ensures { AdmitsRow (nonzero_tests m a) m result }
{
    let row = admit_pair(m, a, a)?;
    if a == 0 {
        return Err(Refusal::OfZero);
    }
    Ok(row)
}

// The product of a and b in the field of degree m.
pub fn product(m: u16, a: Element, b: Element) -> Result<u16, Refusal>
    ensures { TellsProduct m a b result }
{
    admit_pair(m, a, b)?;
    Ok(product_in(m, a, b))
}

// The inverse of a in the field of degree m.
pub fn inverse(m: u16, a: Element) -> Result<u16, Refusal>
    ensures { TellsInverse m a result }
{
    admit_nonzero(m, a)?;
    Ok(inverse_in(m, a))
}

// The tests of the position call: those of an element that must not be 0, with the convention's behind the field's.
fn admit_position(m: u16, r: Element, convention: u16) -> Result<Row, Refusal>
    ensures { AdmitsRow (position_tests m r convention) m result }
{
    if convention <= 1 {
        return admit_nonzero(m, r);
    }
    row_of(m).ok_or(Refusal::Field)?;
    Err(Refusal::Convention)
}

// The position of a root r in the field of degree m: where the bad bit stands. Under convention 0 (Goppa locators,
// products of z + X) the root 2^j stands for place j; under 1 (recorders, products of 1 + X z) for its mirror image
// among the 2^m - 1 places, and place 0 stays 0.
pub fn position(m: u16, r: Element, convention: u16) -> Result<u16, Refusal>
    ensures { TellsPosition m r convention result }
{
    let row = admit_position(m, r, convention)?;
    let j = position_in(m, r);
    if convention == 0 {
        return Ok(j);
    }
    let order = row.size - 1;
    Ok((order - j) % order)
}

// The roots of z^2 + az + b in the field of degree m.
pub fn quadratic(m: u16, a: Element, b: Element) -> Result<Quadratic, Refusal>
    ensures { TellsQuadratic m a b result }
{
    admit_pair(m, a, b)?;
    Ok(roots_in(m, a, b))
}
