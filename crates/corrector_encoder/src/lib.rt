// The block encoder (docs/RULES.md section 7): the check bits of a word of 2047 bits in 256 bytes. A word and its
// remainder at strength t have the same values at a, a^3, .., a^(2t-1), so that their sum is a codeword; the remainder
// has 11 t digits, so that the bits from 11 t on stay.
#![tactic(auto)]

ghost use Rattle.std.specs.Prelude.{◌≡◌, [], ◌∷◌, length};
ghost use Rattle.refusals.specs.Admitting.{told};
ghost use Rattle.corrector_encoder.specs.Bytes.{add_bytes};
ghost use Rattle.corrector_encoder.specs.Encoding.{Encodes};

use corrector::admit_block;
use corrector_code::CHECKS;
use corrector_remainder::remainder_of;
use refusals::Refusal;

// The check bits of the highest strength take so many bytes.
const CHECK_BYTES: usize = 11;

// Adds the lowest bytes of x to those of a part of a word.
fn add_bytes(part: &mut [u8], x: u128)
    ensures { part.new ≡ add_bytes (length part.old) 0 x part.old }
{
    let mut rest = x;
    for byte in part.iter_mut() {
        *byte ^= (rest % 256) as u8;
        rest /= 256;
    }
}

// Makes the word the codeword of this strength that has its bits from 11 t on, and tells how many check bits it has.
pub fn encode(strength: u16, word: &mut [u8]) -> Result<u16, Refusal>
    ensures { Encodes strength word.old (told (λ n. n ∷ []) result) word.new }
{
    admit_block(strength, word)?;
    let r = remainder_of(strength, word);
    add_bytes(&mut word[..CHECK_BYTES], r);
    Ok(CHECKS * strength)
}
