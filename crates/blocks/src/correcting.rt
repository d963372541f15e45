// Words to data.
ghost use Rattle.std.specs.Prelude.{◌≤◌, ◌≡◌, length};

use crate::messages;
use crate::messages::{Done, Fault};
use corrector_stream::WORD;
use job_streams::{Program, Told};

// How many words are read before their data are written.
const WORDS: usize = 256;

// What is asked for: a strength, the bytes of data of a word of that strength, and whether to stop in front of a bad one.
#[derive(Clone, Copy)]
struct Plan {
    strength: u16,
    size: usize,
    strict: bool,
    ghost short: { size ≤ 255 },
}

// What the newest word was: there is none yet or it is full, it is the last, it is bad, or it stands behind the last one.
#[derive(Clone, Copy, PartialEq, Eq)]
enum Newest {
    Full,
    Last,
    Bad,
    Behind,
}

// What is known of the words so far: at is where the next one stands in the input.
#[derive(Clone, Copy)]
struct Tally {
    at: u64,
    words: u64,
    flips: u64,
    far: u64,
    strange: u64,
    newest: Newest,
}

impl Tally {
    // No word yet.
    fn new() -> Tally {
        Tally {
            at: 0,
            words: 0,
            flips: 0,
            far: 0,
            strange: 0,
            newest: Newest::Full,
        }
    }

    // One more word, with so many flips.
    fn count(&mut self, flips: u64, newest: Newest) {
        self.words = self.words.saturating_add(1);
        self.flips = self.flips.saturating_add(flips);
        self.newest = newest;
    }
}

// How a turn ended: there is more to read, the input ended in so many bytes that are no word, or it is to stop.
#[derive(Clone, Copy)]
enum Turn {
    More,
    Over(usize),
    Stop,
}

// The highest bit of the last byte is no bit of a word: it becomes 0. Whether it was 1.
fn clear_last_bit(word: &mut [u8]) -> u64
    requires { length word.old ≡ 256 }
    ensures { result ≤ 1 }
{
    if word[255] < 128 {
        return 0;
    }
    word[255] -= 128;
    1
}

// Takes a word: its data, or zeros, to the front of the room. Returns how many bytes they are.
fn take(
    program: &Program,
    plan: &Plan,
    tally: &mut Tally,
    word: &mut [u8],
    room: &mut [u8],
) -> usize
    requires { length word.old ≡ 256 }
    ensures { result ≤ length room.old }
{
    let cleared = clear_last_bit(word);
    let fault = match corrector_stream::unpack(plan.strength, word, room) {
        Ok(unpacked) => {
            let flips = unpacked.flips as u64 + cleared;
            if let Some(held) = unpacked.held {
                let newest = if held.last {
                    Newest::Last
                } else {
                    Newest::Full
                };
                tally.count(flips, newest);
                return held.bytes;
            }
            tally.count(flips, Newest::Bad);
            tally.strange = tally.strange.saturating_add(1);
            Fault::Strange
        }
        Err(_) => {
            tally.count(0, Newest::Bad);
            tally.far = tally.far.saturating_add(1);
            Fault::Far
        }
    };
    if plan.strict {
        messages::tell_bad(program, tally.at, fault, Done::Stopped);
        return 0;
    }
    messages::tell_bad(program, tally.at, fault, Done::Zeros(room.len()));
    room.fill(0);
    room.len()
}

// Takes a word that is not behind the last one. That one is behind it is said once.
fn take_unless_behind(
    program: &Program,
    plan: &Plan,
    tally: &mut Tally,
    word: &mut [u8],
    room: &mut [u8],
) -> usize
    requires { length word.old ≡ 256 }
    ensures { result ≤ length room.old }
{
    match tally.newest {
        Newest::Full | Newest::Bad => take(program, plan, tally, word, room),
        Newest::Last => {
            messages::tell_behind(program, tally.at);
            tally.newest = Newest::Behind;
            0
        }
        Newest::Behind => 0,
    }
}

// Is it to stop in front of the newest word?
fn stops(plan: &Plan, tally: &Tally) -> bool {
    plan.strict && tally.newest == Newest::Bad
}

// Takes the words one by one; their data stand in the room one behind the other. Returns how many bytes they are.
fn take_words(
    program: &Program,
    plan: &Plan,
    tally: &mut Tally,
    words: &mut [u8],
    out: &mut [u8],
) -> usize
    requires { (length words.old ≤ 65536) × (length out.old ≡ 65536) }
    ensures { result ≤ 65536 }
{
    let mut done = 0;
    for k in 0..words.len() / WORD {
        let at = WORD * k;
        let end = at + WORD;
        let to = done + plan.size;
        done += take_unless_behind(
            program,
            plan,
            tally,
            &mut words[at..end],
            &mut out[done..to],
        );
        if stops(plan, tally) {
            break;
        }
        tally.at = tally.at.saturating_add(WORD as u64);
    }
    done
}

// Reads WORDS words, or what is left, and writes their data.
fn one_turn(
    program: &Program,
    plan: &Plan,
    tally: &mut Tally,
    words: &mut [u8],
    out: &mut [u8],
) -> Result<Turn, Told>
    requires { (length words.old ≡ 65536) × (length out.old ≡ 65536) }
{
    let n = program.read_all(words)?;
    let bytes = take_words(program, plan, tally, &mut words[..n], out);
    program.print(&out[..bytes])?;
    if stops(plan, tally) {
        return Ok(Turn::Stop);
    }
    if n == WORDS * WORD {
        return Ok(Turn::More);
    }
    Ok(Turn::Over(n % WORD))
}

// Says what the end of the input shows, where it ends in so many bytes that are no word.
fn tell_end(program: &Program, tally: &Tally, short: usize) {
    if short > 0 {
        messages::tell_short(program, tally.at, short as u64);
    }
    match tally.newest {
        Newest::Last | Newest::Behind => {}
        Newest::Bad if short == 0 => messages::tell_end_unknown(program),
        Newest::Bad | Newest::Full => messages::tell_last_missing(program),
    }
}

// As often as there is something to read: no input has more turns than a number of 64 bits.
fn turns(program: &Program, plan: &Plan, words: &mut [u8], out: &mut [u8]) -> Result<(), Told>
    requires { (length words.old ≡ 65536) × (length out.old ≡ 65536) }
{
    let mut tally = Tally::new();
    for _ in 0..u64::MAX {
        match one_turn(program, plan, &mut tally, words, out)? {
            Turn::More => {}
            Turn::Over(short) => {
                tell_end(program, &tally, short);
                break;
            }
            Turn::Stop => break,
        }
    }
    messages::tell_summary(program, tally.words, tally.flips, tally.far, tally.strange);
    Ok(())
}

// What fails is told where it fails.
pub fn run(program: &Program, strength: u16, strict: bool) {
    let Some(size) = corrector_stream::capacity(strength) else {
        return;
    };
    let plan = Plan {
        strength,
        size,
        strict,
    };
    let mut words = job_streams::large_buffer();
    let mut out = job_streams::large_buffer();
    let _ = turns(program, &plan, &mut words, &mut out);
}
