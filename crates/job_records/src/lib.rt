// Job records (docs/RULES.md section 5): a place by value over a lent file, an enum for what stands there, and a part
// of the file handed back.
#![tactic(auto)]

ghost use Rattle.std.specs.Prelude.{◌≡◌, ◌+◌, ◌*◌, ◌≤◌, ◌<◌, ◌^◌, length, drop};
ghost use Rattle.refusals.specs.Admitting.{Admits};
ghost use Rattle.input.specs.Values.{Measured};
ghost use Rattle.job_records.specs.Layout.{head_length, degree_byte, word, words, part};
ghost use Rattle.job_records.specs.Cutoffs.{stated_cutoff, stated_by, asked};
ghost use Rattle.job_records.specs.Files.{Halts};
ghost use Rattle.job_records.specs.Reading.{told_read, answered, bytes_of, read_here, ReadsAt, call_tests, Spelled};

use input::{COEFFICIENTS, admit_call};
use refusals::Refusal;

pub mod held; // a reader that holds the file

// What every record begins with.
pub const MARK: [u8; 2] = [0x4C, 0x52];

// How many bytes stand before the coefficients: the mark, m, cutoff and n.
pub const HEAD: usize = 5;

// A record that the whole call accepts: the cutoff that it states, if it states one, its coefficient bytes, which are
// `len` bytes of the file from `start` on, and the place behind it, `next`.
#[derive(Clone, Copy)]
pub struct Job {
    pub m: u8,
    pub cutoff: Option<u8>,
    pub start: usize,
    pub len: usize,
    pub next: usize,
}

// What stands at a place: no more, a record, one that is refused with the place to go on, or something at which
// reading stops.
#[derive(Clone, Copy)]
pub enum Read {
    End,
    Record(Job),
    Refused { refusal: Refusal, next: usize },
    Stopped(Refusal),
}

// Where reading stopped: the number of the record, counted from 1, its place in the file, and its refusal.
#[derive(Drop)]
pub struct Stop {
    pub record_number: u64,
    pub at: usize,
    pub refusal: Refusal,
}

// The number that two bytes spell.
fn word(low: u8, high: u8) -> u16
    ensures { result ≡ word low high }
{
    u16::from_le_bytes([low, high])
}

// The cutoff that a record states: 0 states none, and asks for the house default.
fn cutoff_of(c: u8) -> Option<u8>
    ensures { stated_by result ≡ stated_cutoff c }
{
    (c != 0).then_some(c)
}

// The number of the cutoff that a record asks for: 0 for the house default.
pub fn asked(cutoff: Option<u8>) -> u16
    ensures { result ≡ asked (stated_by cutoff) }
{
    cutoff.unwrap_or(0) as u16
}

// The largest of the coefficients that the bytes spell; 0 where there are none or too many.
fn largest(bytes: &[u8]) -> u16
    ensures { Measured (words bytes.now) (length (words bytes.now)) result }
{
    let n = bytes.len() / 2;
    if COEFFICIENTS < n {
        return 0;
    }
    let mut top = 0;
    for k in 0..n {
        let i = 2 * k;
        let w = word(bytes[i], bytes[i + 1]);
        if top < w {
            top = w;
        }
    }
    top
}

// The whole call's tests 1 to 6 on the fields of a complete record.
fn admit_record(m: u8, c: u8, n: u8, bytes: &[u8]) -> Result<(), Refusal>
    requires { length bytes.now ≡ 2 * n }
    ensures { Admits (call_tests m c (words bytes.now)) result }
{
    admit_call(m as u16, n as usize, largest(bytes), c as u16)
}

// The answer for a complete record at a place: where it is refused, the place to go on.
fn answer(at: usize, m: u8, cutoff: Option<u8>, len: usize, found: Result<(), Refusal>) -> Read
    requires { at + head_length + len < 2 ^ 64 }
    ensures { result ≡ answered at m cutoff len found }
{
    let start = at + HEAD;
    let next = start + len;
    match found {
        Err(refusal) => Read::Refused { refusal, next },
        Ok(()) => Read::Record(Job {
            m,
            cutoff,
            start,
            len,
            next,
        }),
    }
}

// What the bytes from a place on begin with; there is at least one.
fn read_here(at: usize, rest: &[u8]) -> Read
    requires { (0 < length rest.now) × (at + length rest.now < 2 ^ 64) }
    ensures { told_read result ≡ read_here at rest.now }
{
    if rest.len() < 2 {
        return Read::Stopped(Refusal::Short); // one byte remains
    }
    if !rest.starts_with(&MARK) {
        return Read::Stopped(Refusal::Mark);
    }
    if rest.len() < HEAD {
        return Read::Stopped(Refusal::Short); // the head is short
    }
    let m = rest[2];
    let c = rest[3];
    let n = rest[4];
    let len = 2 * (n as usize);
    let all = HEAD + len;
    if rest.len() < all {
        return Read::Stopped(Refusal::Short); // the coefficients are short
    }
    answer(
        at,
        m,
        cutoff_of(c),
        len,
        admit_record(m, c, n, &rest[HEAD..all]),
    )
}

// What stands at a place of the file.
pub fn read_record(file: &[u8], at: usize) -> Read
    ensures { ReadsAt file.now at result }
{
    if file.len() <= at {
        return Read::End;
    }
    read_here(at, &file[at..])
}

// How the reading of a file ends: at its end, or it stops.
pub fn read_through(file: &[u8]) -> Result<(), Stop>
    ensures { Halts file.now 0 1 result }
{
    let mut at = 0;
    let mut k: u64 = 1;
    // kept: (d) the next place comes from what was read, so no range or chain counts here
    loop {
        match read_record(file, at) {
            Read::End => return Ok(()),
            Read::Stopped(refusal) => {
                return Err(Stop {
                    record_number: k,
                    at,
                    refusal,
                });
            }
            Read::Refused { next, .. } => at = next,
            Read::Record(job) => at = job.next,
        }
        k += 1;
    }
}

// The m of the record at a place, whose head is all there: also of one that is refused.
pub fn degree_byte(file: &[u8], at: usize) -> u8
    requires { at + head_length ≤ length file.now }
    ensures { result ≡ degree_byte (drop at file.now) }
{
    file[at + 2]
}

// A part of the file, for the coefficient bytes of a record; it ends where the file ends.
pub fn body(file: &[u8], start: usize, len: usize) -> &[u8]
    ensures { result.now ≡ part file.now start len }
{
    let rest = &file[start.min(file.len())..];
    &rest[..len.min(rest.len())]
}

// The coefficient bytes of what was read, as that part of the file; none where no record was accepted.
pub fn body_of(file: &[u8], read: Read) -> &[u8]
    ensures { result.now ≡ bytes_of file.now read }
{
    match read {
        Read::Record(job) => body(file, job.start, job.len),
        _ => &[],
    }
}

// The coefficients that the bytes spell, to the front of the room; their number.
pub fn coefficients(bytes: &[u8], room: &mut [u16]) -> usize
    requires { length (words bytes.now) ≤ length room.old }
    ensures { Spelled bytes.now room.old result room.new }
{
    let n = bytes.len() / 2;
    for k in 0..n {
        let i = 2 * k;
        room[k] = word(bytes[i], bytes[i + 1]);
    }
    n
}
