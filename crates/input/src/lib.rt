// What calls take: the house's numbers, which polynomials and cutoffs are let in, and which cutoff is in force
// (docs/RULES.md sections 3.1, 3.2 and 8.3). Every call that takes a polynomial begins here, and so does the reader of
// records.
#![tactic(auto)]

ghost use Rattle.std.specs.Prelude.{◌≡◌, [], ◌∷◌, ltb, length};
ghost use Rattle.refusals.specs.Admitting.{Admits};
ghost use Rattle.input.specs.Cutoff.{highest_cutoff, in_force};
ghost use Rattle.input.specs.Polynomials.{polynomial_tests};
ghost use Rattle.input.specs.Values.{Measured, value_tests};

use field::rows::row_of;
use refusals::{Refusal, also};

// The highest cutoff, and what cutoff 0 stands for (specs/Cutoff.antt).
pub const HIGHEST_CUTOFF: u16 = 3;

pub const HOUSE_DEFAULT: u16 = 3;

// The highest degree of a polynomial (specs/Limit.antt), and the most coefficients, one more.
pub const LIMIT: usize = 64;

pub const COEFFICIENTS: usize = LIMIT + 1;

// The words of a square before it is reduced.
pub const SQUARE: usize = 2 * LIMIT;

// The degree of the widest known field, and the words of as many polynomials: its powers, or its traces.
pub const WIDEST: usize = 11;

pub const POWER_ROWS: usize = WIDEST * LIMIT;

// The cutoff in force.
pub fn in_force(cutoff: u16) -> u16
    ensures { result ≡ in_force cutoff }
{
    if cutoff == 0 {
        return HOUSE_DEFAULT;
    }
    cutoff
}

// Refusals 1 to 5, of a field degree, the number of coefficients and the largest of them.
fn admit_values(m: u16, n: usize, top: u16) -> Result<(), Refusal>
    ensures { Admits (value_tests m n top []) result }
{
    let row = row_of(m).ok_or(Refusal::Field)?;
    if n == 0 {
        return Err(Refusal::Empty);
    }
    if COEFFICIENTS < n {
        return Err(Refusal::Long);
    }
    if row.size <= top {
        return Err(Refusal::Element);
    }
    if top == 0 {
        return Err(Refusal::AllZero);
    }
    Ok(())
}

// Refusals 1 to 6, of these and a cutoff: what the whole call, begin and the reader of records ask.
pub fn admit_call(m: u16, n: usize, top: u16, cutoff: u16) -> Result<(), Refusal>
    ensures { Admits (value_tests m n top ((6, ltb highest_cutoff cutoff) ∷ [])) result }
{
    let above = HIGHEST_CUTOFF < cutoff;
    also(admit_values(m, n, top), above, Refusal::Cutoff)
}

// The largest of a polynomial's coefficients; 0 where there are too many.
fn largest(coeffs: &[u16]) -> u16
    ensures { Measured coeffs.now (length coeffs.now) result }
{
    if COEFFICIENTS < coeffs.len() {
        return 0;
    }
    let mut top = 0;
    for c in coeffs {
        if top < *c {
            top = *c;
        }
    }
    top
}

// Refusals 1 to 5 and 7, of a polynomial and of lent slots that are too few.
pub fn admit_room(m: u16, coeffs: &[u16], short: bool) -> Result<(), Refusal>
    ensures { Admits (polynomial_tests m coeffs.now ((7, short) ∷ [])) result }
{
    also(
        admit_values(m, coeffs.len(), largest(coeffs)),
        short,
        Refusal::Room,
    )
}

// Refusals 1 to 7, of a polynomial, a cutoff, and lent slots that are too few or not as many as they must be.
pub fn admit(m: u16, coeffs: &[u16], cutoff: u16, short: bool) -> Result<(), Refusal>
    ensures { Admits (polynomial_tests m coeffs.now
        ((6, ltb highest_cutoff cutoff) ∷ (7, short) ∷ [])) result }
{
    let found = admit_call(m, coeffs.len(), largest(coeffs), cutoff);
    also(found, short, Refusal::Room)
}
