// Data to words.
ghost use Rattle.std.specs.Prelude.{◌≤◌, ◌≡◌, length};

use corrector_stream::WORD;
use job_streams::{Program, Told};

// How many words are made before they are written.
const WORDS: usize = 256;

// Makes full words of the data, each of `size` bytes, until no such piece is left or there are WORDS of them. Returns
// how many there are, and the data that are left.
fn make_full<'a>(strength: u16, size: usize, bytes: &'a [u8], out: &mut [u8]) -> (usize, &'a [u8])
    requires { length out.old ≡ 65536 }
    ensures { result.0 ≤ 256 }
{
    let mut rest = bytes;
    for k in 0..WORDS {
        let Some((piece, behind)) = rest.split_at_checked(size) else {
            return (k, rest);
        };
        let to = WORD * k;
        let next = to + WORD;
        let _ = corrector_stream::pack(strength, piece, false, &mut out[to..next]); // such a piece fills a word
        rest = behind;
    }
    (WORDS, rest)
}

// Makes words of what was read, and writes them; whether there is more to read. What does not fill WORDS words is the
// end of the input.
fn write_words(
    program: &Program,
    strength: u16,
    size: usize,
    bytes: &[u8],
    out: &mut [u8],
) -> Result<bool, Told>
    requires { length out.old ≡ 65536 }
{
    let (k, rest) = make_full(strength, size, bytes, out);
    if k == WORDS {
        program.print(out)?;
        return Ok(true);
    }
    let to = WORD * k;
    let next = to + WORD;
    let _ = corrector_stream::pack(strength, rest, true, &mut out[to..next]); // there is room for the end byte
    program.print(&out[..next])?;
    Ok(false)
}

// Reads what fills WORDS words, and writes them; whether there is more to read.
fn turn(
    program: &Program,
    strength: u16,
    size: usize,
    pieces: &mut [u8],
    out: &mut [u8],
) -> Result<bool, Told>
    requires { (size ≤ 255) × (length pieces.old ≡ 65536) × (length out.old ≡ 65536) }
{
    let most = WORDS * size;
    let n = program.read_all(&mut pieces[..most])?;
    write_words(program, strength, size, &pieces[..n], out)
}

// As often as there is something to read: no input has more turns than a number of 64 bits.
fn turns(
    program: &Program,
    strength: u16,
    size: usize,
    pieces: &mut [u8],
    out: &mut [u8],
) -> Result<(), Told>
    requires { (size ≤ 255) × (length pieces.old ≡ 65536) × (length out.old ≡ 65536) }
{
    for _ in 0..u64::MAX {
        if !turn(program, strength, size, pieces, out)? {
            break;
        }
    }
    Ok(())
}

// What fails is told where it fails.
pub fn run(program: &Program, strength: u16) {
    let Some(size) = corrector_stream::capacity(strength) else {
        return;
    };
    let mut pieces = job_streams::large_buffer();
    let mut out = job_streams::large_buffer();
    let _ = turns(program, strength, size, &mut pieces, &mut out);
}
