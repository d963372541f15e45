// The locator polynomial of one to four wrong bits, by closed formulas over the odd syndromes in place of Berlekamp's
// register: the constants in place serve, and no table is built. That it is the right one is not promised: who takes
// it tries the power sums of its places.
//
// Let s, s3, s5, s7, .. be the power sums of at most four locators X. By Newton's identities the product of (1 + X z)
// is 1 + s z + b z^2 + c z^3 + d z^4, where c = D + s b and
//     D b + s d = A,    E b + s3 d = B
// with D = s^3 + s3, E = s^5 + s5, A = s^2 s3 + s5 and B = s s3^2 + s^4 D + s7. With D = 0 there is one locator; where
// the determinant V = D s3 + s E is 0 there are two, and with d = 0 three.
#![tactic(auto)]

ghost use Rattle.std.specs.Prelude.{◌<◌};
ghost use Rattle.corrector_few.specs.Locators.{LowLocator};

use field::rows::ROW11;
use field_constants::tables::{antilog11, log11};

// No log is as large: twice the order.
const LOGS: u16 = 2 * (ROW11.size - 1);

// The log of an element: twice its position, or 1 where it is 0.
#[derive(Clone, Copy)]
struct Log {
    log: u16,
    ghost small: { log < 4094 },
}

impl Log {
    // That of a number as an element.
    fn of(x: u16) -> Log {
        Log {
            log: log11(x % ROW11.size),
        }
    }

    // That of the square.
    fn squared(self) -> Log {
        let k = 2 * self.log;
        Log {
            log: if k < LOGS { k } else { k - LOGS },
        }
    }

    // The product of two elements of which one is not 0.
    fn times(self, k: Log) -> u16 {
        antilog11(self.log + k.log)
    }

    // The quotient of two elements of which one is not 0.
    fn over(self, k: Log) -> u16 {
        antilog11(self.log + (LOGS - k.log))
    }
}

// The coefficients of 1 + a z + b z^2 + c z^3 + d z^4, over numbers as elements.
fn made(a: u16, b: u16, c: u16, d: u16) -> [u16; 5]
    ensures { LowLocator result }
{
    [
        1,
        a % ROW11.size,
        b % ROW11.size,
        c % ROW11.size,
        d % ROW11.size,
    ]
}

// Is s9 what follows from the others? l and h are the logs of s and s3.
fn goes_on(s: [u16; 8], l: Log, h: Log, b: u16, c: u16, d: u16) -> bool {
    let [_, _, s5, s7, s9, ..] = s;
    let nine = l.squared().squared().squared().times(l) ^ Log::of(b).times(Log::of(s7));
    nine ^ Log::of(c).times(h.squared()) ^ Log::of(d).times(Log::of(s5)) == s9
}

// Three or four locators, by the logs l of s, h of s3, k of D, g of E and v of V.
fn more(s: [u16; 8], t: u16, l: Log, h: Log, k: Log, g: Log, v: Log) -> [u16; 5]
    ensures { LowLocator result }
{
    let [s1, s3, s5, s7, ..] = s;
    let m = l.squared();
    let d0 = m.times(l) ^ s3;
    let a = Log::of(m.times(h) ^ s5);
    if t == 3 {
        let b = a.over(k);
        return made(s1, b, d0 ^ Log::of(b).times(l), 0);
    }
    let q = Log::of(l.times(h.squared()) ^ m.squared().times(k) ^ s7);
    let b = Log::of(a.times(h) ^ q.times(l)).over(v);
    let d = Log::of(k.times(q) ^ g.times(a)).over(v);
    let c = d0 ^ Log::of(b).times(l);
    if t > 4 && !goes_on(s, l, h, b, c, d) {
        return made(0, 0, 0, 0);
    }
    made(s1, b, c, d)
}

// The locator polynomial of at most four wrong bits with these odd syndromes, of which t are known; 1 where these show
// that there are more.
pub fn locator(s: [u16; 8], t: u16) -> [u16; 5]
    ensures { LowLocator result }
{
    let [s1, s3, s5, ..] = s;
    let l = Log::of(s1);
    let d = l.squared().times(l) ^ s3;
    if t == 1 || d == 0 {
        return made(s1, 0, 0, 0);
    }
    let k = Log::of(d);
    if t == 2 {
        return made(s1, k.over(l), 0, 0);
    }
    let h = Log::of(s3);
    let g = Log::of(l.squared().squared().times(l) ^ s5);
    let v = k.times(h) ^ g.times(l);
    if v == 0 {
        return made(s1, k.over(l), 0, 0);
    }
    more(s, t, l, h, k, g, Log::of(v))
}
