// A word of a stream of data (docs/RULES.md section 7.4): data and a mark into a word of 256 bytes, which is then
// encoded, and back: corrected and taken apart. Data stand in whole bytes behind the check bits. Byte 255 is 0 in a
// word that is full, and 1 in the last one of a stream, whose data end in front of its last byte 80 (hex).
#![tactic(auto)]

ghost use Rattle.std.specs.Prelude.{◌≡◌, ◌+◌, ◌-◌, ◌*◌, ◌^◌, ◌≤◌, ◌↔◌, length, IsTrue};
ghost use Rattle.corrector.specs.Correcting.{IsBlock, IsStrength};
ghost use Rattle.corrector_stream.specs.Calls.{CapacityIs, Packs, Unpacks};
ghost use Rattle.corrector_stream.specs.Parts.{Holds, TakesOut, LastSet, EndsAt};
ghost use Rattle.corrector_stream.specs.Words.{capacity as capacity_of, data_start, Fills, Fits, content};
ghost use Rattle.corrector_stream.specs.declared.PackError.TheVariants.{Refused};

use refusals::Refusal;

// Why `pack` makes no word: the data do not fill one; or what is turned away.
#[derive(Clone, Copy, Debug, PartialEq, Eq, Drop)]
pub enum PackError {
    Unfit,
    Refused(Refusal),
}

impl From<Refusal> for PackError {
    ghost from_gives = { λ k e. e ≡ Refused k };

    fn from(k: Refusal) -> PackError {
        PackError::Refused(k)
    }
}

// What a codeword carries: so many bytes of data, and whether it is the last.
#[derive(Clone, Copy, Debug, PartialEq, Eq, Drop)]
pub struct Held {
    pub bytes: usize,
    pub last: bool,
}

// What `unpack` answers: how many bits were flipped, and what the codeword carries, if `pack` can have made it.
#[derive(Clone, Copy, Debug, PartialEq, Eq, Drop)]
pub struct Unpacked {
    pub flips: u16,
    pub held: Option<Held>,
}

// The length of a word, the place of its mark, and the byte behind the data of the last word.
pub const WORD: usize = 256;

const MARK: usize = 255;

const END: u8 = 128;

// Where the data of a word start.
fn data_start(t: u16) -> usize
    requires { IsStrength t }
    ensures { result ≡ data_start t }
{
    (11 * t as usize + 7) / 8
}

// How many bytes of data a word of a strength carries; none for no strength.
pub fn capacity(strength: u16) -> Option<usize>
    ensures { CapacityIs strength result }
{
    match strength {
        1..=8 => Some(MARK - data_start(strength)),
        _ => None,
    }
}

// Makes a word the content of the data.
fn fill(strength: u16, piece: &[u8], last: bool, word: &mut [u8])
    requires { IsStrength strength × Fits strength piece.now last × (length word.old ≡ 256) }
    ensures { word.new ≡ content strength piece.now last }
{
    let start = data_start(strength);
    let end = start + piece.len();
    word.fill(0);
    word[start..end].copy_from_slice(piece);
    if last {
        word[end] = END;
        word[MARK] = 1;
    }
}

// Do so many bytes fill a word?
fn fits(size: usize, n: usize, last: bool) -> bool
    ensures { IsTrue result ↔ Fills size n last }
{
    if last { n < size } else { n == size }
}

// Makes the word carry the data, the last of a stream or not, and encodes it.
pub fn pack(strength: u16, piece: &[u8], last: bool, word: &mut [u8]) -> Result<(), PackError>
    ensures { Packs strength piece.now last word.old result word.new }
{
    if word.len() != WORD {
        return Err(PackError::Refused(Refusal::Block));
    }
    let size = capacity(strength).ok_or(Refusal::Strength)?;
    if !fits(size, piece.len(), last) {
        return Err(PackError::Unfit);
    }
    fill(strength, piece, last, word);
    corrector_encoder::encode(strength, word)?;
    Ok(())
}

// One more than the highest value of the byte that holds the last check bits: those behind them are 0.
fn check_limit(t: u16) -> u16
    requires { IsStrength t }
    ensures { result ≡ 2 ^ (11 * t - 8 * (data_start t - 1)) }
{
    1 << (11 * t as usize - 8 * (data_start(t) - 1))
}

// The last place with a byte that is not 0.
fn last_set(b: &[u8]) -> Option<usize>
    ensures { LastSet b.now result }
{
    b.iter().rposition(|x| *x != 0)
}

// Where the data end in front of the last byte END, behind which there are zeros alone.
fn end_of(b: &[u8]) -> Option<usize>
    ensures { EndsAt b.now result }
{
    let k = last_set(b)?;
    if b[k] != END {
        return None;
    }
    Some(k)
}

// What a block carries.
fn held_in(strength: u16, word: &[u8]) -> Option<Held>
    requires { IsStrength strength × IsBlock word.now }
    ensures { Holds strength word.now result }
{
    let start = data_start(strength);
    if word[start - 1] as u16 >= check_limit(strength) {
        return None;
    }
    match word[MARK] {
        0 => Some(Held {
            bytes: MARK - start,
            last: false,
        }),
        1 => {
            let bytes = end_of(&word[start..MARK])?;
            Some(Held { bytes, last: true })
        }
        _ => None,
    }
}

// Copies the data of a codeword to the front of the room.
fn take_out(strength: u16, word: &[u8], room: &mut [u8]) -> Option<Held>
    requires { IsStrength strength × IsBlock word.now × (capacity_of strength ≤ length room.old) }
    ensures { TakesOut strength word.now room.old result room.new }
{
    let held = held_in(strength, word)?;
    let start = data_start(strength);
    let end = start + held.bytes;
    room[..held.bytes].copy_from_slice(&word[start..end]);
    Some(held)
}

// Corrects the word, and puts the data that it carries at the front of the room.
pub fn unpack(strength: u16, word: &mut [u8], room: &mut [u8]) -> Result<Unpacked, Refusal>
    ensures { Unpacks strength word.old room.old result word.new room.new }
{
    if room.len() < capacity(strength).unwrap_or(0) {
        return Err(Refusal::Room);
    }
    let flips = corrector::correct(strength, word)?;
    let held = take_out(strength, word, room);
    Ok(Unpacked { flips, held })
}
