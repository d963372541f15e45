// Command line, standard input and standard output of the programs: what is wrong with them is said on standard error.
// What is told by a program stands behind its name, as b"roots".
#![tactic(auto)]

ghost use Rattle.std.specs.Prelude.{◌≡◌, ◌≤◌, length, take, Decides};
ghost use Rattle.job_streams.specs.Reading.{came};

use job_records::Stop;
use refusals::Refusal;
use std::env::{Env, FillError};
use std::io;
use std::io::Read;

// The most bytes that a program reads: those of `large_buffer`.
pub const MOST: usize = 65536;

// The bytes of a word of the command line that are looked at.
const WORD: usize = 4096;

// The version of the programs.
const VERSION: [u8; 5] = *b"0.1.0";

// What a word of the command line asks for.
#[derive(Clone, Copy)]
enum Word {
    Help,
    Version,
    Unknown,
}

// What comes after the input that was read: nothing, more, or what a read that failed does not tell.
#[derive(Clone, Copy)]
pub enum Behind {
    Nothing,
    More,
    Unknown,
}

// A program: the runtime, and its name.
#[derive(Clone, Copy)]
pub struct Program<'a> {
    pub rt: &'a HostRuntime,
    pub name: &'a [u8],
}

// What failed, and is told on standard error already.
#[derive(Clone, Copy)]
pub struct Told;

// A read that failed, which is told already: how many bytes came ahead of it.
#[derive(Clone, Copy)]
pub struct Broken {
    pub bytes: usize,
}

impl From<Broken> for Told {
    fn from(_: Broken) -> Told {
        Told
    }
}

// Room for the most bytes that a program reads. Of it only the length is told.
pub fn large_buffer() -> [u8; MOST]
    ensures { 65536 ≡ length result }
{
    [0; MOST]
}

// A text of an error in front of the system's number for it.
fn front(text: &str) -> &str {
    match text.split_once(" (os error ") {
        Some((front, _)) => front,
        None => text,
    }
}

// Are these the same bytes?
// kept: (a) that texts are told apart exactly is a promise on this name (docs/PROMISES.md)
pub fn same(a: &[u8], b: &[u8]) -> bool
    ensures { Decides result (a.now ≡ b.now) }
{
    a == b
}

// What a word asks for.
fn word_of(word: &[u8]) -> Word {
    if same(word, b"--help") {
        return Word::Help;
    }
    if same(word, b"--version") {
        return Word::Version;
    }
    Word::Unknown
}

// Which of several words is the first that is not known: `--help` and `--version` stand alone.
fn first_unknown(word: &[u8]) -> usize {
    match word_of(word) {
        Word::Help | Word::Version => 2,
        Word::Unknown => 1,
    }
}

// Is there a word at a place of the command line? The program's name stands at place 0.
pub fn has_word(rt: &HostRuntime, i: usize) -> bool {
    let mut one = [0u8; 1];
    !matches!(rt.arg(i, &mut one), Err(FillError::NotPresent))
}

// Puts the word at a place of the command line into the room, and tells its length: 0 where it is missing or longer than
// the room.
pub fn word_at(rt: &HostRuntime, i: usize, room: &mut [u8]) -> usize
    ensures { (result ≤ length room.new) × (result ≡ length (take result room.new)) }
{
    rt.arg(i, room).unwrap_or(0)
}

impl<'a> Program<'a> {
    // Says a text on standard error. That it cannot be said can be told nowhere.
    pub fn say(&self, text: &[u8]) {
        let _ = self.rt.stderr().write_all(text);
    }

    // Says a number in decimal on standard error.
    pub fn say_number(&self, n: u64) {
        let _ = self.rt.stderr().print(n);
    }

    // Says the system's text for an error, without its number. Where there is no memory for that, the number is said
    // too.
    fn say_error(&self, error: io::Error) {
        match error.to_string(self.rt.alloc()) {
            Ok(text) => self.say(front(text.as_str()).as_bytes()),
            Err(_) => {
                let _ = self.rt.stderr().print(error);
            }
        }
    }

    // Tells that something failed: what, as b"salvage: kept.lr", and the system's text for the error.
    pub fn tell_error(&self, what: &[u8], error: io::Error) -> Told {
        self.say(what);
        self.say(b": ");
        self.say_error(error);
        self.say(b"\n");
        Told
    }

    // Tells that a stream of the program failed: its name, then the stream, as b": standard input", and the system's text
    // for the error.
    fn fail(&self, stream: &[u8], error: io::Error) -> Told {
        self.say(self.name);
        self.tell_error(stream, error)
    }

    // Says that the program does not know a word, and how to use it.
    fn refuse(&self, word: &[u8], usage: &[u8]) {
        self.say(self.name);
        self.say(b": unknown word '");
        self.say(word);
        self.say(b"'; usage: ");
        self.say(usage);
        self.say(b"\n");
    }

    // Prints a text. That it cannot be printed is told.
    pub fn print(&self, text: &[u8]) -> Result<(), Told> {
        match self.rt.stdout().write_all(text) {
            Ok(()) => Ok(()),
            Err(error) => Err(self.fail(b": standard output", error)),
        }
    }

    // Prints a text; that it cannot be printed is told, and nothing else follows from it.
    fn show(&self, text: &[u8]) {
        let _ = self.print(text);
    }

    // Prints the program's name and version.
    pub fn print_version(&self) {
        self.show(self.name);
        self.show(b" ");
        self.show(&VERSION);
        self.show(b"\n");
    }

    // Does what the one word of a command line asks for; what is not known is refused.
    fn obey(&self, word: &[u8], usage: &[u8], help: &[u8]) {
        match word_of(word) {
            Word::Help => {
                self.show(b"usage: ");
                self.show(usage);
                self.show(b"\n");
                self.show(help);
            }
            Word::Version => self.print_version(),
            Word::Unknown => self.refuse(word, usage),
        }
    }

    // Is the program to go on? It is where its command line has no word. `--help` and `--version` are obeyed, and any
    // other word is refused, before anything is read or written.
    pub fn starts(&self, usage: &[u8], help: &[u8]) -> bool {
        if !has_word(self.rt, 1) {
            return true;
        }
        let mut room = [0u8; WORD];
        let n = word_at(self.rt, 1, &mut room);
        if !has_word(self.rt, 2) {
            self.obey(&room[..n], usage, help);
            return false;
        }
        let m = word_at(self.rt, first_unknown(&room[..n]), &mut room);
        self.refuse(&room[..m], usage);
        false
    }

    // Reads until MOST bytes came, the room is full or the input ends, and tells how many bytes came, also where a read
    // fails, which is told.
    pub fn read_all(&self, room: &mut [u8]) -> Result<usize, Broken>
        ensures prefix_len { (came result ≤ length room.new) × (came result ≡ length (take (came result) room.new)) }
        ensures bytes_bound { came result ≤ 65536 }
    {
        let most = room.len().min(MOST);
        let mut stdin = self.rt.stdin();
        let mut done = 0;
        while done < most {
            match stdin.read(&mut room[done..most]) {
                Err(error) => {
                    self.fail(b": standard input", error);
                    return Err(Broken { bytes: done });
                }
                Ok(0) => break,
                Ok(more) => done += more,
            }
        }
        Ok(done)
    }

    // Asks what comes after the n bytes that were read: only where they are the most that a program reads can there be
    // more. A read that fails is told.
    pub fn ask_behind(&self, n: usize) -> Behind {
        if n < MOST {
            return Behind::Nothing;
        }
        let mut one = [0u8; 1];
        match self.rt.stdin().read(&mut one) {
            Err(error) => {
                self.fail(b": standard input", error);
                Behind::Unknown
            }
            Ok(0) => Behind::Nothing,
            Ok(_) => Behind::More,
        }
    }

    // Says that there is input past the most that a program reads.
    pub fn tell_ignored(&self) {
        self.say(self.name);
        self.say(b": input behind 65,536 bytes is ignored\n");
    }

    // Where n bytes came: says so if there is input past the most that a program reads.
    pub fn tell_behind(&self, n: usize) {
        if let Behind::More = self.ask_behind(n) {
            self.tell_ignored();
        }
    }

    // Says at which record of a job file, and at which byte, reading stopped, and why: its mark is missing, or it ends
    // early.
    pub fn tell_stop(&self, stop: Stop) {
        self.say(self.name);
        self.say(b": reading stopped at record ");
        self.say_number(stop.record_number);
        self.say(b" (byte ");
        self.say_number(stop.at as u64);
        match stop.refusal {
            Refusal::Mark => self.say(b"): its mark is missing"),
            _ => self.say(b"): it ends early"),
        }
        self.say(b"; the rest was not read; `salvage` keeps what can be kept\n");
    }
}
