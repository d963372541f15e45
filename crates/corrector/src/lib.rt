// The block corrector (docs/RULES.md section 7): words of 2047 bits in field 11, in 256 bytes. Where the remainder of a
// word at its strength is 0 it is a codeword of that strength, and nothing more is done.
// Else the remainder gives the odd syndromes, these a locator polynomial, the root finder its roots by the engine that
// is fastest at its degree, and their positions under the recorders' convention the places. Places are flipped where
// there are at most t of them and their odd power sums are the syndromes, wherever they came from. The polynomial of
// one to four wrong bits is guessed by closed formulas. Where the guess fails Berlekamp's register gives it, and its
// places decide exactly whether a codeword lies within t bits.
#![tactic(auto)]

ghost use Rattle.std.specs.Prelude.{◌≡◌, [], ◌∷◌, map, ◌+◌, ◌/◌, ◌%◌, ◌<◌, ◌≤◌, get_or, length, MatchOption, IsTrue, ◌↔◌};
ghost use Rattle.algebra.specs.Trial.{All};
ghost use Rattle.field.specs.Field.{field_at, roots_at};
ghost use Rattle.field_elements.specs.Calls.{position_under};
ghost use Rattle.poly_small.specs.Roots.{Front};
ghost use Rattle.refusals.specs.Admitting.{told};
ghost use Rattle.corrector_locator.specs.Under.{Under};
ghost use Rattle.corrector.specs.Places.{places_of, sum_at, flip_all, Findable, IsRoot, Named};
ghost use Rattle.corrector.specs.Places.{Placeable, Agrees, Agreed, Mended, Unacceptable};
ghost use Rattle.corrector.specs.Correcting.{IsBlock, IsStrength, Admitted, Corrects};

use corrector_code::{LAST, STRONGEST, WORD};
use field::rows::ROW11;
use field_constants::tables::antilog11;
use field_elements::places::recorder_place11;
use find_direct::direct_roots;
use find_resultants::find_in;
use input::LIMIT;
use poly::monic::top;
use refusals::Refusal;

// With so many coefficients, and degree 1 to 4, roots are found directly.
const DIRECT: usize = 5;

// A last byte that is not below this has the last bit set.
const LAST_BIT: u8 = 128;

// How many elements the field has.
const SIZE: u32 = ROW11.size as u32;

// The tests of a block at a strength.
pub fn admit_block(strength: u16, word: &[u8]) -> Result<(), Refusal>
    ensures { Admitted strength word.now result }
{
    if word.len() != WORD || word[LAST] >= LAST_BIT {
        return Err(Refusal::Block);
    }
    if strength == 0 || strength > STRONGEST {
        return Err(Refusal::Strength);
    }
    Ok(())
}

// Writes the roots of a locator polynomial to the front of the list, by the engine that is fastest at its degree (the
// trace engine and the plain search take longer at degrees 5 to 8): from degree 1 to 4 directly, and where a guess
// fails or at a higher degree by successive resultants. Returns how many there are.
fn roots_of(locator: [u16; 9], roots: &mut [u16]) -> u16
    requires { Findable locator roots.old }
    ensures { Front (roots_at 11 locator) result roots.new }
{
    let n = top(&locator);
    if 2 <= n && n <= DIRECT {
        if let Some(k) = direct_roots(n, &locator, roots) {
            return k;
        }
    }
    find_in(ROW11.degree, &locator, roots)
}

// Puts the place of each root where the root stands: its position under the recorders' convention.
fn put_places(roots: &mut [u16])
    requires { All IsRoot roots.old }
    ensures { roots.new ≡ map (position_under 1 (field_at 11)) roots.old }
{
    for root in roots.iter_mut() {
        *root = recorder_place11(*root);
    }
}

// Writes the places that a locator polynomial names to the front of the list, unless there are more than t. Returns how
// many there are.
fn places_of(locator: [u16; 9], t: u16, places: &mut [u16]) -> Option<u16>
    requires { Findable locator places.old × (get_or locator 0 0 ≡ 1) × (t ≤ 8) }
    ensures { MatchOption result (t < length (places_of locator)) (λ n. Named (places_of locator) t n places.new) }
{
    let n = roots_of(locator, places);
    if n > t {
        return None;
    }
    put_places(&mut places[..n as usize]);
    Some(n)
}

// An exponent with the same power of a: a^2048 is a. That takes fewer instructions than the remainder by the order.
fn around(e: u32) -> u32
    ensures { result ≡ e % 2048 + e / 2048 }
{
    e % SIZE + e / SIZE
}

// The sum of a^(k j) over the places j.
fn power_sum(places: &[u16], k: u32) -> u16
    requires { All (λ j. j < 2047) places.now × (k < 100) }
    ensures { result ≡ sum_at places.now k }
{
    let mut sum = 0;
    for place in places {
        sum ^= antilog11(2 * around(*place as u32 * k) as u16);
    }
    sum
}

// Are these the first odd power sums of the places?
fn agree(places: &[u16], odd: &[u16]) -> bool
    requires { All (λ j. j < 2047) places.now × (length odd.now ≤ 8) }
    ensures { IsTrue result ↔ Agrees odd.now (length odd.now) places.now }
{
    odd.iter()
        .enumerate()
        .all(|(i, sum)| power_sum(places, 2 * i as u32 + 1) == *sum)
}

// Flips the bits at the places.
fn flip(word: &mut [u8], places: &[u16])
    requires { (length word.old ≡ 256) × All (λ j. j < 2047) places.now }
    ensures { word.new ≡ flip_all places.now word.old }
{
    for place in places {
        let j = *place as usize;
        word[j / 8] ^= 1 << (j % 8);
    }
}

// Flips the bits at the places where these are their first odd power sums. Returns how many bits that are.
fn flip_if_agreed(places: &[u16], odd: &[u16], word: &mut [u8]) -> Option<u16>
    requires { Placeable places.now × (length odd.now ≤ 8) × (length word.old ≡ 256) }
    ensures { Agreed odd.now places.now word.old result word.new }
{
    if !agree(places, odd) {
        return None;
    }
    flip(word, places);
    Some(places.len() as u16)
}

// Flips the bits at the places of the locator polynomial that is guessed for one to four wrong bits, where it is right.
// Returns how many bits that are.
fn mend_few(odd: [u16; 8], t: u16, word: &mut [u8]) -> Option<u16>
    requires { (t ≤ 8) × (length word.old ≡ 256) }
    ensures { MatchOption result (word.new ≡ word.old) (λ n. Mended odd t word.old n word.new) }
{
    let locator = corrector_few::locator(odd, t);
    let n = top(&locator);
    if n < 2 {
        return None;
    }
    let mut roots = [0; 4];
    let s = direct_roots(n, &locator, &mut roots)?;
    if s > t {
        return None;
    }
    let places = &mut roots[..s as usize];
    put_places(places);
    flip_if_agreed(places, &odd[..t as usize], word)
}

// Flips the bits at the places that the register names for these odd syndromes, where they are right: else there is no
// codeword within t bits. Returns how many bits that are.
fn mend_named(odd: [u16; 8], t: u16, word: &mut [u8]) -> Option<u16>
    requires { Under odd × (t ≤ 8) × (length word.old ≡ 256) }
    ensures { MatchOption result ((word.new ≡ word.old) × Unacceptable odd t)
        (λ n. Mended odd t word.old n word.new) }
{
    let sums = corrector_locator::all_sums(odd);
    let register = corrector_locator::key(&sums, t as usize);
    let mut places = [0; LIMIT];
    let n = places_of(register.locator, t, &mut places)?;
    flip_if_agreed(&places[..n as usize], &odd[..t as usize], word)
}

// A block at a strength: the word becomes the codeword near it, if there is one.
fn mend_block(strength: u16, word: &mut [u8]) -> Result<u16, Refusal>
    requires { IsBlock word.old × IsStrength strength }
    ensures { Corrects strength word.old (told (λ n. n ∷ []) result) word.new }
{
    let r = corrector_remainder::remainder_of(strength, word);
    if r == 0 {
        return Ok(0);
    }
    let odd = corrector_syndromes::odd_values(r);
    if let Some(n) = mend_few(odd, strength, word) {
        return Ok(n);
    }
    mend_named(odd, strength, word).ok_or(Refusal::Far)
}

// Makes the word the codeword of this strength within so many bits of it, if there is one, and tells how many bits
// were flipped.
pub fn correct(strength: u16, word: &mut [u8]) -> Result<u16, Refusal>
    ensures { Corrects strength word.old (told (λ n. n ∷ []) result) word.new }
{
    admit_block(strength, word)?;
    mend_block(strength, word)
}
