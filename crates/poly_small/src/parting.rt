// Degree 3 by traces: the part of a cubic that splits, and its parting by the traces Tr(2^i z), i = 0, 1, .. , into
// degrees 1 and 2.
ghost use Rattle.std.specs.Prelude.{◌<◌, ◌^◌, length};
ghost use Rattle.algebra.specs.Polynomial.{field_poly, trace_of};
ghost use Rattle.field.specs.Field.{G};
ghost use Rattle.poly_small.specs.Roots.{SmallSolvable, RootsOut};
ghost use Rattle.poly_small.specs.Parting.{Cubic, GcdOf, CubicPartable, CubicParted, Pieces};

use crate::low::low_roots;
use field::tables::Tables;
use poly_gcd::{cofactor, gcd};
use poly_powers::{trace_of, z_power};

// Writes the part of the monic cubic with the low coefficients p that splits, its gcd with z^(2^m) + z, to the front
// of g. Returns its degree.
fn cubic_split_part(tables: &Tables, p: &[u16], g: &mut [u16]) -> usize
    requires { Cubic tables.now.degree p.now g.old }
    ensures { let m = tables.now.degree in GcdOf m p.now (field_poly (G m) m) result g.new }
{
    let mut w = [0u16; 3];
    z_power(tables, p, tables.degree, &mut w);
    w[1] ^= 1;
    gcd(tables, p, &w, g)
}

// Writes the gcd of the monic cubic with the low coefficients p and Tr(bz) to the front of g. Returns its degree.
fn part_at(tables: &Tables, p: &[u16], b: u16, g: &mut [u16]) -> usize
    requires { let m = tables.now.degree in Cubic m p.now g.old × (b < 2 ^ m) }
    ensures { let m = tables.now.degree in GcdOf m p.now (trace_of (G m) m b) result g.new }
{
    let mut t = [0u16; 3];
    trace_of(tables, p, b, &mut t);
    gcd(tables, p, &t, g)
}

// Writes the gcd with Tr(2^i z) at the first level i that parts the monic cubic with the low coefficients p to the
// front of g. Returns its degree, 1 or 2.
fn part_of(tables: &Tables, p: &[u16], g: &mut [u16]) -> usize
    requires { CubicPartable tables.now.degree p.now g.old }
    ensures { CubicParted tables.now.degree p.now result g.new }
{
    let mut b: u16 = 1;
    for _ in 0..tables.degree {
        let n = part_at(tables, p, b, g);
        if n == 1 || n == 2 {
            return n;
        }
        b *= 2;
    }
    unreachable!()
}

// Writes the roots of the monic cubic with the low coefficients p to the front of out, those of its part g and of what
// is left without it. Returns their number.
fn roots_of_parts(tables: &Tables, halves: &[u16], p: &[u16], g: &[u16], out: &mut [u16]) -> usize
    requires { Pieces tables.now.degree halves.now p.now g.now out.old }
    ensures { RootsOut tables.now.degree p.now result out.new }
{
    let e = 3 - g.len();
    let mut h = [0u16; 3];
    cofactor(tables, p, g, &mut h[..e]);
    let k = low_roots(tables.degree, halves, g, out);
    let j = low_roots(tables.degree, halves, &h[..e], &mut out[k..]);
    k + j
}

// Writes the roots of the monic cubic with the low coefficients p to the front of out, each once. Returns how many
// there are.
pub fn cubic_roots(tables: &Tables, halves: &[u16], p: &[u16], out: &mut [u16]) -> usize
    requires { SmallSolvable tables.now.degree halves.now p.now out.old × (2 < length p.now) }
    ensures { RootsOut tables.now.degree p.now result out.new }
{
    let mut f = [0u16; 4];
    let n = cubic_split_part(tables, p, &mut f);
    if n < 3 {
        return low_roots(tables.degree, halves, &f[..n], out);
    }
    let mut g = [0u16; 4];
    let k = part_of(tables, &f[..3], &mut g);
    roots_of_parts(tables, halves, &f[..3], &g[..k], out)
}
