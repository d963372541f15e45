// The field types, the way in for the element calls: each is its row, and thin calls over what the rows share.
ghost use Rattle.std.specs.Prelude.{◌≡◌, refl, true, ◌<◌, ◌^◌};
ghost use Rattle.field.specs.Rows.{known, IsRow};
ghost use Rattle.field.specs.Field.{field_at, mul, inverse, position};
ghost use Rattle.field.specs.Quadratics.{SolvesQuadratic};
ghost use Rattle.field.specs.declared.rows.Row.{Row};
ghost use Rattle.field.proofs.Known.{row4, row8, row11};

use crate::constants::{halves_of, logs_of};
use field::rows::{ROW4, ROW8, ROW11, Row};
use field::solver::Quadratic;

// A field by its row.
pub trait Field {
    const ROW: Row;

    ghost ROW: { Row };

    ghost is_row: { IsRow ROW.degree ROW };

    final fn mul(a: u16, b: u16) -> u16
        requires { b < ROW.size }
        ensures { result ≡ mul (field_at ROW.degree) a b }
    {
        Self::ROW.product(a, b)
    }

    final fn inverse(a: u16) -> u16
        requires { (0 < a) × (a < ROW.size) }
        ensures { result ≡ inverse (field_at ROW.degree) a }
    {
        Self::ROW.inverse(a)
    }

    final fn position(r: u16) -> u16
        requires { (0 < r) × (r < ROW.size) }
        ensures { result ≡ position (field_at ROW.degree) r }
    {
        Self::ROW.position(logs_of(Self::ROW.degree), r)
    }

    final fn roots(a: u16, b: u16) -> Quadratic
        requires { (a < ROW.size) × (b < ROW.size) }
        ensures { SolvesQuadratic (field_at ROW.degree) a b result }
    {
        Self::ROW.quadratic(halves_of(Self::ROW.degree), a, b)
    }
}

// The field of 16 elements.
#[derive(Drop)]
pub struct F4;

impl Field for F4 {
    const ROW: Row = ROW4;

    ghost ROW = { record { degree = 4; poly = 19; size = 16 } };

    ghost is_row = { record { list = row4; degree = refl; size = refl } };
}

// The field of 256 elements.
#[derive(Drop)]
pub struct F8;

impl Field for F8 {
    const ROW: Row = ROW8;

    ghost ROW = { record { degree = 8; poly = 285; size = 256 } };

    ghost is_row = { record { list = row8; degree = refl; size = refl } };
}

// The field of 2048 elements.
#[derive(Drop)]
pub struct F11;

impl Field for F11 {
    const ROW: Row = ROW11;

    ghost ROW = { record { degree = 11; poly = 2053; size = 2048 } };

    ghost is_row = { record { list = row11; degree = refl; size = refl } };
}

// The product of a and an element b in the known field of degree m.
pub fn product_in(m: u16, a: u16, b: u16) -> u16
    requires { (known m ≡ true) × (b < 2 ^ m) }
    ensures { result ≡ mul (field_at m) a b }
{
    match m {
        4 => F4::mul(a, b),
        8 => F8::mul(a, b),
        _ => F11::mul(a, b),
    }
}

// The inverse of a nonzero element in the known field of degree m.
pub fn inverse_in(m: u16, a: u16) -> u16
    requires { (known m ≡ true) × (0 < a) × (a < 2 ^ m) }
    ensures { result ≡ inverse (field_at m) a }
{
    match m {
        4 => F4::inverse(a),
        8 => F8::inverse(a),
        _ => F11::inverse(a),
    }
}

// The position of a nonzero element in the known field of degree m.
pub fn position_in(m: u16, r: u16) -> u16
    requires { (known m ≡ true) × (0 < r) × (r < 2 ^ m) }
    ensures { result ≡ position (field_at m) r }
{
    match m {
        4 => F4::position(r),
        8 => F8::position(r),
        _ => F11::position(r),
    }
}

// The roots of z^2 + az + b in the known field of degree m.
pub fn roots_in(m: u16, a: u16, b: u16) -> Quadratic
    requires { (known m ≡ true) × (a < 2 ^ m) × (b < 2 ^ m) }
    ensures { SolvesQuadratic (field_at m) a b result }
{
    match m {
        4 => F4::roots(a, b),
        8 => F8::roots(a, b),
        _ => F11::roots(a, b),
    }
}
