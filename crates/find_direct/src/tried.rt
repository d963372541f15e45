// Degrees 3 and 4: roots are guessed and tried. A polynomial of degree d has at most d roots, so that d ascending
// numbers at which it is 0 are all of them, wherever they came from.
ghost use Rattle.std.specs.Prelude.{◌≡◌, true, map, ◌-◌, ◌≤◌, ◌<◌, length, IfSome};
ghost use Rattle.algebra.specs.Polynomial.{Below, eval};
ghost use Rattle.algebra.specs.Routines.{monic};
ghost use Rattle.field.specs.Field.{field_at, mul, G, roots_at};
ghost use Rattle.slices.specs.Lists.{copied};
ghost use Rattle.find_direct.specs.Listing.{Leading, DirectOut};

use crate::guess::guess;
use field_constants::arithmetic::{inverse11, product11};

// The value at x of the monic polynomial with the low coefficients p, of which there are some: Horner's rule, without
// the leading 1.
fn value(p: &[u16], x: u16) -> u16
    requires { Below 2048 p.now × (0 < length p.now) × (x < 2048) }
    ensures { result ≡ eval (G 11) (monic (G 11) p.now) x }
{
    let last = p.len() - 1;
    let mut v = x ^ p[last];
    for i in (0..last).rev() {
        v = product11(x, v) ^ p[i];
    }
    v
}

// Are the numbers xs, ascending, roots of the monic polynomial with the low coefficients p, as many? Then they are
// all.
fn all_roots(p: &[u16], xs: &[u16]) -> bool
    requires { Below 2048 p.now × (length p.now ≡ length xs.now) }
    ensures { result ≡ true → roots_at 11 (monic (G 11) p.now) ≡ xs.now }
{
    let mut bound: u16 = 2048;
    for i in (0..xs.len()).rev() {
        let x = xs[i];
        if x >= bound {
            return false;
        }
        if value(p, x) != 0 {
            return false;
        }
        bound = x;
    }
    true
}

// Writes the coefficients f, times v, to the front of p.
fn scale(v: u16, f: &[u16], p: &mut [u16])
    requires { (v < 2048) × Below 2048 f.now × (length f.now ≤ length p.old) }
    ensures { p.new ≡ copied (map (mul (field_at 11) v) f.now) p.old }
{
    for i in 0..f.len() {
        p[i] = product11(v, f[i]);
    }
}

// Writes the roots of an accepted polynomial with n coefficients up to its leading one, of degree 3 or 4, ascending,
// to the front of the list, if a guess finds as many. Returns how many there are then; the list is as it was if not.
pub fn tried_roots(n: usize, coeffs: &[u16], roots: &mut [u16]) -> Option<u16>
    requires { Leading n coeffs.now × (4 ≤ n) × (n ≤ 5) × (4 ≤ length roots.old) }
    ensures listed { DirectOut (roots_at 11 coeffs.now) roots.old result roots.new }
    ensures count { IfSome result (λ k. k ≡ n - 1) }
{
    let k = n - 1;
    let mut p = [0u16; 4];
    scale(inverse11(coeffs[k]), &coeffs[..k], &mut p);
    let xs = guess(&p[..k]);
    if !all_roots(&p[..k], &xs[..k]) {
        return None;
    }
    roots[..k].copy_from_slice(&xs[..k]);
    Some(k as u16)
}
