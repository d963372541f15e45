// Degrees 1 to 4 in field 11 without a table that is lent: the products are made over the tables in place, so that a
// call builds nothing. A polynomial that a recorder's word gives mostly has degree 1 or 2.
#![tactic(auto)]

ghost use Rattle.std.specs.Prelude.{◌≤◌, ◌<◌, length};
ghost use Rattle.field.specs.Field.{field_at, roots_at};
ghost use Rattle.field.specs.Quadratics.{roots_of_quadratic};
ghost use Rattle.find_direct.specs.Listing.{Leading, Listed, DirectOut};

use crate::tried::tried_roots;
use field::solver::Quadratic;
use field_constants::arithmetic::{inverse11, product11, quotient11, roots11};

pub mod guess; // roots of degrees 3 and 4, guessed
pub mod steps; // the steps of a list of roots
pub mod tried; // degrees 3 and 4

// Writes the root of an accepted polynomial of degree 1 to the front of the list.
fn linear_root(coeffs: &[u16], roots: &mut [u16])
    requires { Leading 2 coeffs.now × (1 ≤ length roots.old) }
    ensures { Listed (roots_at 11 coeffs.now) roots.old 1 roots.new }
{
    roots[0] = quotient11(coeffs[0], coeffs[1]);
}

// Writes the roots of z^2 + az + b, ascending, to the front of the list. Returns how many there are.
fn write_roots(a: u16, b: u16, roots: &mut [u16]) -> u16
    requires { (a < 2048) × (b < 2048) × (2 ≤ length roots.old) }
    ensures { Listed (roots_of_quadratic (field_at 11) a b) roots.old result roots.new }
{
    match roots11(a, b) {
        Quadratic::NoRoot => 0,
        Quadratic::Double(x) => {
            roots[0] = x;
            1
        }
        Quadratic::Two(x, y) => {
            roots[0] = x;
            roots[1] = y;
            2
        }
    }
}

// Writes the roots of an accepted polynomial of degree 2, ascending, to the front of the list. Returns how many there
// are.
fn quadratic_roots(coeffs: &[u16], roots: &mut [u16]) -> u16
    requires { Leading 3 coeffs.now × (2 ≤ length roots.old) }
    ensures { Listed (roots_at 11 coeffs.now) roots.old result roots.new }
{
    let v = inverse11(coeffs[2]);
    let a = product11(v, coeffs[1]);
    let b = product11(v, coeffs[0]);
    write_roots(a, b, roots)
}

// Writes the roots of an accepted polynomial with n coefficients up to its leading one, of degree 1 to 4, ascending,
// to the front of the list. Returns how many there are. From degree 3 on a guess fails where there are fewer of them
// than the degree: then nothing is written.
pub fn direct_roots(n: usize, coeffs: &[u16], roots: &mut [u16]) -> Option<u16>
    requires { Leading n coeffs.now × (2 ≤ n) × (n ≤ 5) × (4 ≤ length roots.old) }
    ensures { DirectOut (roots_at 11 coeffs.now) roots.old result roots.new }
{
    match n {
        2 => {
            linear_root(coeffs, roots);
            Some(1)
        }
        3 => Some(quadratic_roots(coeffs, roots)),
        _ => tried_roots(n, coeffs, roots),
    }
}
