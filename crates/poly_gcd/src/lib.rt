// The monic greatest common divisor of a monic polynomial and another by Euclid's loop, whose two slices change roles
// at each division, so that none copies; and the cofactor. The work is here, for degrees up to the house's limit.
#![tactic(auto)]

ghost use Rattle.std.specs.Prelude.{◌≡◌, ◌≤◌, length, take};
ghost use Rattle.algebra.specs.Routines.{cofactor};
ghost use Rattle.field.specs.Field.{G};
ghost use Rattle.input.specs.Limit.{limit};
ghost use Rattle.poly_gcd.specs.Asking.{Turnable, Reducing, Commonable, Cofactorable};
ghost use Rattle.poly_gcd.specs.Euclid.{LeftIn, EuclidTurned, GcdIs};

use field::tables::Tables;
use input::{COEFFICIENTS, LIMIT};
use poly::division::divide;
use poly::monic::make_monic;
use poly::rows::log_row;

// Leaves the remainder of the first k coefficients of b by the monic polynomial with the low coefficients p at the
// front of b.
fn leave_remainder(tables: &Tables, p: &[u16], row: &mut [u16], b: &mut [u16], k: usize)
    requires { Reducing tables.now.degree p.now row.old b.old k }
    ensures { LeftIn tables.now.degree p.now b.old k b.new }
{
    let n = p.len();
    log_row(tables, p, &mut row[..n]);
    if k < n {
        b[k..n].fill(0);
        return;
    }
    divide(tables, &row[..n], &mut b[..k]);
}

// One division of Euclid's. Returns how many coefficients the remainder has, 0 where it is 0.
fn euclid_turn(
    tables: &Tables,
    row: &mut [u16],
    a: &mut [u16],
    n: usize,
    b: &mut [u16],
    k: usize,
) -> usize
    requires { Turnable tables.now.degree a.old n b.old k × (limit ≤ length row.old) }
    ensures { EuclidTurned tables.now.degree a.old n b.old k result a.new b.new }
{
    leave_remainder(tables, &a[..n], row, b, k);
    a[n] = 1;
    make_monic(tables, &mut b[..n])
}

// kept: n and k beside the slices, as what is lent shrinks at each turn and a place behind it takes the divisor's 1
// Euclid's loop: the monic greatest common divisor of the monic polynomial with the n low coefficients at the front of
// a, and the one with the k coefficients at the front of b. Its low coefficients come to the front of a, and their
// number is returned.
pub fn euclid(tables: &Tables, a: &mut [u16], mut n: usize, b: &mut [u16], mut k: usize) -> usize
    requires { Turnable tables.now.degree a.old n b.old k }
    ensures { GcdIs tables.now.degree (take n a.old) (take k b.old) result a.new }
{
    let mut row = [0u16; LIMIT];
    loop {
        let j = euclid_turn(tables, &mut row, a, n, b, k);
        if j == 0 {
            return n;
        }
        let d = j - 1;
        let i = euclid_turn(tables, &mut row, b, d, a, n + 1);
        if i == 0 {
            slices::store(&mut a[..d], &b[..d]);
            return d;
        }
        n = i - 1;
        k = d + 1;
    }
}

// Writes the monic greatest common divisor of the monic polynomial with the low coefficients p, and t, to the front of
// g. Returns its degree.
pub fn gcd(tables: &Tables, p: &[u16], t: &[u16], g: &mut [u16]) -> usize
    requires { Commonable tables.now.degree p.now t.now g.old }
    ensures { GcdIs tables.now.degree p.now t.now result g.new }
{
    let mut b = [0u16; COEFFICIENTS];
    b[..t.len()].copy_from_slice(t);
    // kept: (a) `copy_from_slice` here asks C for memmove in the archive of poly_face, which asked for memcpy and memset alone
    slices::store(&mut g[..p.len()], p);
    euclid(tables, g, p.len(), &mut b, t.len())
}

// Writes what is left of the monic polynomial with the low coefficients p where the monic one with the low
// coefficients g, which divides it, is taken out to h.
pub fn cofactor(tables: &Tables, p: &[u16], g: &[u16], h: &mut [u16])
    requires { Cofactorable tables.now.degree p.now g.now h.old }
    ensures { h.new ≡ cofactor (G tables.now.degree) p.now g.now }
{
    let n = p.len();
    let e = n + 1;
    let d = g.len();
    let mut row = [0u16; LIMIT];
    let mut f = [0u16; COEFFICIENTS];
    log_row(tables, g, &mut row[..d]);
    f[..n].copy_from_slice(p);
    f[n] = 1;
    divide(tables, &row[..d], &mut f[..e]);
    h.copy_from_slice(&f[d..n]);
}
