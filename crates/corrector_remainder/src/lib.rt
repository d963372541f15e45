// The remainder of a word at a strength: a number of 11 t binary digits that has the values of the word at a, a^3, ..,
// a^(2t-1). A word is divided by the generator of strength 5 or 8, four bytes at a time: the 32 digits that leave the
// register at the top come back by the tables of corrector_generator. By that of strength 5 the remainder has 55
// digits, which fit 64 bits, at two thirds of the cost. Its digits from 11 t on are then cut one by one.
#![tactic(auto)]

ghost use Rattle.std.specs.Prelude.{◌≡◌, ℕ, ◌+◌, ◌-◌, ◌*◌, ◌/◌, ◌^◌, ◌≤◌, ◌<◌, bit_xor, length, min};
ghost use Rattle.std.proofs.Common.{rules};
ghost use Rattle.field.specs.Field.{reduce};
ghost use Rattle.corrector_code.specs.Digits.{bytes_number};
ghost use Rattle.corrector_generator.specs.Generators.{generator_of, generator_at};
ghost use Rattle.corrector_remainder.specs.Remainder.{lessened, RestAt};

mod raised; // the generators, moved up

use crate::raised::{RAISED5, RAISED8};
use corrector_code::{CHECKS, WORD};
use corrector_generator::{rows5, rows8};

// Four bytes have so many values.
const FOUR_BYTES: u64 = 1 << 32;

// The lowest of 55 digits that leave with four bytes more.
const LEAVING5: u64 = 1 << 23;

// The lowest of 88 digits that leave with four bytes more.
const LEAVING8: u128 = 1 << 56;

// A register of the remainders by the generator of a strength.
trait Register: Copy + Drop {
    // The strength of the generator.
    const STRENGTH: u16;

    ghost STRENGTH: { ℕ };

    // The number that is held.
    ghost number: { Self → ℕ };

    // No digit.
    fn zero() -> Self
        ensures { number result ≡ 0 };

    // The generator of a strength t, moved up to the highest digit of the register, or where no digit is cut its half.
    fn raised(t: u16) -> Self
        requires { (1 ≤ t) × (t ≤ STRENGTH) }
        ensures { number result ≡ generator_of t * 2 ^ (11 * (STRENGTH - t)) / 2 };

    // Four bytes more: the remainder of r x^32 + b.
    fn next(self, b: u32) -> Self
        requires { number self < 2 ^ (11 * STRENGTH) }
        ensures { number result ≡ reduce (generator_at STRENGTH) (number self * 2 ^ 32 + b) };

    // The lesser of a number and the same with g added.
    fn cut(self, g: Self) -> Self
        ensures { number result ≡ min (number self) (bit_xor (number self) (number g)) };

    // Half of a number, rounded down.
    fn halved(self) -> Self
        ensures { number result ≡ number self / 2 };

    // There is a generator.
    ghost known: { (1 ≤ STRENGTH) × (STRENGTH ≤ 8) };
}

impl Register for u64 {
    const STRENGTH: u16 = 5;

    ghost STRENGTH = { 5 };

    ghost number = { λ r. r };

    ghost known = { Prim.search rules };

    fn zero() -> u64 {
        0
    }

    fn raised(t: u16) -> u64 {
        RAISED5[t as usize - 1]
    }

    fn next(self, b: u32) -> u64 {
        let back = rows5::back((self / LEAVING5) as u32);
        (self % LEAVING5 * FOUR_BYTES + u64::from(b)) ^ back
    }

    fn cut(self, g: u64) -> u64 {
        self.min(self ^ g)
    }

    fn halved(self) -> u64 {
        self / 2
    }
}

impl Register for u128 {
    const STRENGTH: u16 = 8;

    ghost STRENGTH = { 8 };

    ghost number = { λ r. r };

    ghost known = { Prim.search rules };

    fn zero() -> u128 {
        0
    }

    fn raised(t: u16) -> u128 {
        RAISED8[t as usize - 1]
    }

    fn next(self, b: u32) -> u128 {
        let back = rows8::back((self / LEAVING8) as u32);
        (self % LEAVING8 * FOUR_BYTES as u128 + u128::from(b)) ^ back
    }

    fn cut(self, g: u128) -> u128 {
        (self ^ g).min(self)
    }

    fn halved(self) -> u128 {
        self / 2
    }
}

// The remainder of a word by the generator of a register, its last bytes first. With the place written as 4 k the
// compiler reads four bytes as one.
fn rest<R: Register>(word: &[u8]) -> R
    requires { length word.now ≡ 256 }
    ensures { R.number result ≡ reduce (generator_at R.STRENGTH) (bytes_number word.now) }
{
    let mut r = R::zero();
    for k in (0..WORD / 4).rev() {
        let i = 4 * k;
        let four = u32::from_le_bytes([word[i], word[i + 1], word[i + 2], word[i + 3]]);
        r = r.next(four);
    }
    r
}

// The remainder of a word by the generator of strength 8.
pub fn rest8(word: &[u8]) -> u128
    requires { length word.now ≡ 256 }
    ensures { result ≡ reduce (generator_at 8) (bytes_number word.now) }
{
    rest::<u128>(word)
}

// The n highest digits of a number, cut by g, g/2, g/4, ..: with g added it is less where it has the highest digit of
// g. Without a branch this takes half the instructions.
fn lower<R: Register>(x: R, g: R, n: u16) -> R
    ensures { R.number result ≡ lessened n (R.number g) (R.number x) }
{
    let mut r = x;
    let mut h = g;
    for _ in 0..n {
        r = r.cut(h);
        h = h.halved();
    }
    r
}

// The remainder of a word at a strength t, in a register of at least that strength.
fn remainder_in<R: Register>(strength: u16, word: &[u8]) -> R
    requires { (length word.now ≡ 256) × (1 ≤ strength) × (strength ≤ R.STRENGTH) }
    ensures { RestAt strength (bytes_number word.now) (R.number result) }
{
    let n = CHECKS * (R::STRENGTH - strength);
    lower(rest::<R>(word), R::raised(strength), n)
}

// The remainder of a word at a strength t: 11 t digits, with the values of the word at a, a^3, .., a^(2t-1). Where it
// is 0 the word is a codeword of that strength.
pub fn remainder_of(strength: u16, word: &[u8]) -> u128
    requires { (length word.now ≡ 256) × (1 ≤ strength) × (strength ≤ 8) }
    ensures { RestAt strength (bytes_number word.now) result }
{
    if strength <= u64::STRENGTH {
        return u128::from(remainder_in::<u64>(strength, word));
    }
    remainder_in::<u128>(strength, word)
}
