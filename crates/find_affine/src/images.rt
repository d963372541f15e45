// The terms of an affine polynomial at an element, and the columns of its system.
ghost use Rattle.std.specs.Prelude.{◌≡◌, true, ◌<◌, ◌^◌};
ghost use Rattle.algebra.specs.Polynomial.{Below};
ghost use Rattle.field.specs.Rows.{known};
ghost use Rattle.find_affine.specs.Affine.{terms_at};
ghost use Rattle.find_affine.specs.Systems.{Imaged};

use crate::COLUMNS;
use field::tables::Tables;
use field_tables::constants::tables_of;

// The sum of the terms c_i x^(2^i), where x is not 0.
fn terms(tables: &Tables, coeffs: &[u16], x: u16) -> u16
    requires { Below (2 ^ tables.now.degree) coeffs.now × (0 < x) × (x < 2 ^ tables.now.degree) }
    ensures { result ≡ terms_at tables.now.degree coeffs.now x }
{
    let mut sum = 0;
    let mut y = x;
    for c in coeffs {
        sum ^= tables.product(y, *c);
        y = tables.product(y, y);
    }
    sum
}

// The columns: the terms at 1, 2, 4, .., 2^(m-1), then the constant, then zeros.
pub fn images(m: u16, coeffs: &[u16], constant: u16) -> [u16; COLUMNS]
    requires { (known m ≡ true) × Below (2 ^ m) coeffs.now }
    ensures { Imaged m coeffs.now constant result }
{
    let tables = tables_of(m);
    let n = m as usize;
    let mut out = [0; COLUMNS];
    for j in 0..n {
        out[j] = terms(&tables, coeffs, 1 << j);
    }
    out[n] = constant;
    out
}
