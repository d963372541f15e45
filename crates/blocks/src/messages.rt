// What the program says: of words on standard error, and of itself. That a line cannot be said can be told nowhere. A line
// is said piece by piece: where one piece cannot be said, the next is tried.

use job_streams::Program;

// Why a word is bad.
#[derive(Clone, Copy)]
pub enum Fault {
    Far, // it cannot be corrected
    Strange, // it is a codeword that `blocks encode` does not write
}

// What is done about a bad word.
#[derive(Clone, Copy)]
pub enum Done {
    Stopped, // the program stops in front of it
    Zeros(usize), // so many zeros stand in its place
}

pub fn print_help(program: &Program) {
    let _ = program.print(
        b"usage: blocks encode T             data on standard input to words of 256 bytes on standard output
       blocks correct T            words on standard input to data on standard output: standard error names
                                   each word that cannot be corrected, and zeros stand in its place
       blocks correct T --strict   the same, but stops in front of such a word
       blocks --help | --version
T, the strength, is how many wrong bits of a word are corrected, 1 to 8. A word carries 253, 252, 250, 249, 248,
246, 245 or 244 bytes of data at the strengths 1 to 8.
",
    );
}

pub fn tell_usage(program: &Program) {
    program.say(
        b"blocks: usage: blocks encode T, blocks correct T [--strict], blocks --help or --version; T is 1 to 8\n",
    );
}

// Says a text, and a number behind it.
fn say_number(program: &Program, text: &[u8], n: u64) {
    program.say(text);
    program.say_number(n);
}

// Says which word stands at a byte of the input.
fn say_word(program: &Program, at: u64) {
    say_number(program, b"blocks: word ", at / 256 + 1);
    say_number(program, b" (byte ", at);
    program.say(b"): ");
}

// Says what is wrong with the word at a byte of the input, and what is done about it.
pub fn tell_bad(program: &Program, at: u64, fault: Fault, done: Done) {
    say_word(program, at);
    match fault {
        Fault::Far => program.say(b"cannot be corrected"),
        Fault::Strange => program.say(b"not a word that blocks encode writes"),
    }
    match done {
        Done::Stopped => program.say(b": stopped in front of it\n"),
        Done::Zeros(bytes) => {
            say_number(program, b": ", bytes as u64);
            program.say(b" bytes of zeros stand in its place\n");
        }
    }
}

// At a byte of the input words begin that stand behind the last one.
pub fn tell_behind(program: &Program, at: u64) {
    say_word(program, at);
    program.say(b"behind the last word: nothing from here on is written\n");
}

// The input ends in so many bytes that are no word.
pub fn tell_short(program: &Program, at: u64, bytes: u64) {
    say_word(program, at);
    program.say_number(bytes);
    program.say(b" bytes in place of 256: nothing of it is written\n");
}

// The final word is bad.
pub fn tell_end_unknown(program: &Program) {
    program.say(b"blocks: the final word is lost: the end of the data is not known\n");
}

// No word is marked as the last.
pub fn tell_last_missing(program: &Program) {
    program.say(b"blocks: the last word is missing: data may be missing at the end\n");
}

// How many words were read, bits flipped and words lost.
pub fn tell_summary(program: &Program, words: u64, flips: u64, far: u64, strange: u64) {
    say_number(program, b"blocks: words ", words);
    say_number(program, b", flips ", flips);
    say_number(program, b", uncorrectable ", far);
    if strange > 0 {
        say_number(program, b", not ours ", strange);
    }
    program.say(b"\n");
}
