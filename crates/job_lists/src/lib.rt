// Lists of jobs as text: where a line ends, whether it is whole, and the record that it asks for.
#![tactic(auto)]

ghost use Rattle.std.specs.Prelude.{◌≡◌, ◌≤◌, length};
ghost use Rattle.job_lists.specs.Lines.{line_end, ends_whole};
ghost use Rattle.job_lists.specs.Calls.{Lists, ListsAt};

use refusals::Refusal;

pub mod words; // the numbers of a line

// What a line asks for: nothing, nothing that can be read, or a record, with what the writer answers. A line that is
// cut off asks for nothing.
#[derive(Clone, Copy)]
pub enum Listed {
    Blank,
    Illegible,
    CutOff,
    Answer(Result<u16, Refusal>),
}

// The line at a place: what it asks for, and where it ends.
#[derive(Clone, Copy)]
pub struct TakenLine {
    pub listed: Listed,
    pub end: usize,
}

// Where the line at a place ends: before the next line feed, or at the end of the text.
// Only the bytes from there on are looked at.
fn line_end(text: &[u8], at: usize) -> usize
    requires { at ≤ length text.now }
    ensures { result ≡ line_end text.now at }
{
    at + text[at..].iter().take_while(|b| **b != b'\n').count()
}

// Is a line whole that ends at a place: does a line feed end it, or the end of the input?
fn is_whole(text: &[u8], end: usize, ended: bool) -> bool
    ensures { result ≡ ends_whole text.now end ended }
{
    ended || end < text.len()
}

// Writes the record that a line asks for to the front of the room.
fn line_record(line: &[u8], room: &mut [u8]) -> Listed
    ensures { Lists line.now room.old result room.new }
{
    if !words::legible(line) {
        return Listed::Illegible;
    }
    let list = words::numbers(line);
    match list.as_slice() {
        [] => Listed::Blank,
        [_] => Listed::Illegible,
        [m, cutoff, roots @ ..] => { Listed::Answer(job_writer::write(*m, *cutoff, roots, room)) }
    }
}

// Writes the record that the line at a place asks for to the front of the room; none where the line is cut off. Where
// `ended` holds the input ends with the text.
pub fn record_at(text: &[u8], at: usize, ended: bool, room: &mut [u8]) -> TakenLine
    requires { at ≤ length text.now }
    ensures lists_at { ListsAt text.now at ended room.old result.listed room.new }
    ensures end_value { result.end ≡ line_end text.now at }
{
    let end = line_end(text, at);
    if !is_whole(text, end, ended) {
        return TakenLine {
            listed: Listed::CutOff,
            end,
        };
    }
    let listed = line_record(&text[at..end], room);
    TakenLine { listed, end }
}
