// The key equation: Berlekamp's register for a binary code, on arrays of nine coefficients.
#![tactic(auto)]

ghost use Rattle.std.specs.Prelude.{◌≡◌, ◌+◌, ◌*◌, ◌<◌, length, get_or};
ghost use Rattle.corrector_code.specs.Eleven.{F11};
ghost use Rattle.corrector_code.specs.Key.{plus_times, conv, shift, turn, register};
ghost use Rattle.corrector_locator.specs.Under.{Under, register_of, Sound, PowerSums};

use corrector_code::STRONGEST;
use field_constants::arithmetic::{inverse11, product11};

// So many power sums are odd: 1, 3, .., 15.
const ODD: usize = STRONGEST as usize;

// The power sums 0 to 16.
const SUMS: usize = 2 * ODD + 1;

// The coefficients of a locator polynomial: of degree 8 at most.
const TERMS: usize = ODD + 1;

// p + d q.
fn plus_times(mut p: [u16; TERMS], d: u16, q: [u16; TERMS]) -> [u16; TERMS]
    requires { (d < 2048) × Under q }
    ensures { result ≡ plus_times F11 p d q }
{
    for i in 0..TERMS {
        p[i] ^= product11(d, q[i]);
    }
    p
}

// The coefficient at k of the product of p and s.
fn product_at(p: [u16; TERMS], s: &[u16], k: usize) -> u16
    requires { Under p × Under s.now × (k < length s.now) }
    ensures { result ≡ conv F11 p (λ j. get_or s.now j 0) k }
{
    let mut d = 0;
    for i in 0..TERMS.min(k + 1) {
        d ^= product11(p[i], s[k - i]);
    }
    d
}

// z^2 p, in as many coefficients.
fn shifted(p: [u16; TERMS]) -> [u16; TERMS]
    ensures { result ≡ shift F11 p }
{
    let mut r = [0; TERMS];
    for i in 2..TERMS {
        r[i] = p[i - 2];
    }
    r
}

// The register: the locator and the spare polynomial, whose degrees are at most low and high.
#[derive(Clone, Copy)]
pub struct State {
    pub locator: [u16; TERMS],
    pub spare: [u16; TERMS],
    pub low: u32,
    pub high: u32,
}

// One turn, on the power sums 2m + 1 and 2m + 2.
fn turn_register(s: &[u16], m: usize, r: State) -> State
    requires { Under s.now × (2 * m + 1 < length s.now) × Sound r }
    ensures { register_of result ≡ turn F11 (λ j. get_or s.now j 0) m (register_of r) }
{
    let State {
        locator,
        spare,
        low,
        high,
    } = r;
    let d = product_at(locator, s, 2 * m + 1);
    if d == 0 {
        return State {
            locator,
            spare: shifted(spare),
            low,
            high: high + 2,
        };
    }
    let mended = plus_times(locator, d, spare);
    if low < high {
        let v = inverse11(d);
        let old = plus_times([0; TERMS], v, locator);
        return State {
            locator: mended,
            spare: shifted(old),
            low: high,
            high: low + 2,
        };
    }
    State {
        locator: mended,
        spare: shifted(spare),
        low,
        high: high + 2,
    }
}

// The register after t turns on the power sums s, s[0] = 1: its locator polynomial is the key equation's solution.
pub fn key(s: &[u16], t: usize) -> State
    requires { Under s.now × (2 * t < length s.now) × (t < 9) }
    ensures { register_of result ≡ register F11 8 (λ j. get_or s.now j 0) t }
{
    let mut r = State {
        locator: [1, 0, 0, 0, 0, 0, 0, 0, 0],
        spare: [0, 1, 0, 0, 0, 0, 0, 0, 0],
        low: 0,
        high: 1,
    };
    for m in 0..t {
        r = turn_register(s, m, r);
    }
    r
}

// The power sums 0 to 16 from the odd ones: 1 first, and even ones as squares.
pub fn all_sums(odd: [u16; ODD]) -> [u16; SUMS]
    requires { Under odd }
    ensures { PowerSums odd result }
{
    let mut s = [1; SUMS];
    for i in 0..ODD {
        s[2 * i + 1] = odd[i];
        let x = s[i + 1];
        s[2 * i + 2] = product11(x, x);
    }
    s
}
