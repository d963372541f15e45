// Products, inverses, quotients, square roots and quadratics of field 11 over the tables in place.
ghost use Rattle.std.specs.Prelude.{◌≡◌, ◌<◌};
ghost use Rattle.field.specs.Field.{field_at, mul, inverse};
ghost use Rattle.field.specs.Quadratics.{roots_in, roots_of_quadratic};

use crate::tables::{antilog11, half11, log11};
use field::rows::ROW11;
use field::solver::Quadratic;
use field_tables::constants::tables_of;

// The product of two elements.
pub fn product11(x: u16, y: u16) -> u16
    requires { (x < 2048) × (y < 2048) }
    ensures { result ≡ mul (field_at 11) x y }
{
    if x == 0 {
        return 0;
    }
    tables_of(ROW11.degree).product(x, y)
}

// The inverse of a nonzero element.
pub fn inverse11(x: u16) -> u16
    requires { (0 < x) × (x < 2048) }
    ensures { result ≡ inverse (field_at 11) x }
{
    tables_of(ROW11.degree).inverse(x)
}

// The quotient x / y, where y is not 0: the difference of the logs is odd where x is 0.
pub fn quotient11(x: u16, y: u16) -> u16
    requires { (x < 2048) × (0 < y) × (y < 2048) }
    ensures { result ≡ mul (field_at 11) (inverse (field_at 11) y) x }
{
    antilog11(log11(x) + (4094 - log11(y)))
}

// The square root of an element: its position halved, modulo the order, which is odd.
pub fn root11(x: u16) -> u16
    requires { x < 2048 }
    ensures { (result < 2048) × (mul (field_at 11) result result ≡ x) }
{
    if x == 0 {
        return 0;
    }
    let k = log11(x) / 2;
    antilog11(k + k % 2 * 2047)
}

// The roots of z^2 + az + b, as crate field's solver finds them.
pub fn roots11(a: u16, b: u16) -> Quadratic
    requires { (a < 2048) × (b < 2048) }
    ensures { roots_in result ≡ roots_of_quadratic (field_at 11) a b }
{
    let s = root11(b);
    if a == 0 {
        return Quadratic::Double(s);
    }
    let q = product11(s, inverse11(a));
    let j = half11(q);
    if j == 65535 {
        return Quadratic::NoRoot;
    }
    let x = product11(a, j ^ q);
    let y = x ^ a;
    if x < y {
        return Quadratic::Two(x, y);
    }
    Quadratic::Two(y, x)
}
