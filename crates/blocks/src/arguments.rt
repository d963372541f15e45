// What the words of the command line ask for.

// What is asked for: the strength, and whether to stop in front of a word that is bad.
#[derive(Clone, Copy)]
pub enum Asked {
    Encode(u16),
    Correct { strength: u16, strict: bool },
    Help,
    Version,
}

// A word of the command line that is known.
#[derive(Clone, Copy, PartialEq, Eq)]
enum Word {
    Encode,
    Correct,
    Strict,
    Help,
    Version,
    Strength(u16),
}

// Room for any word that is known.
const LONGEST: usize = 16;

// What a text is, if it is known: a strength is a digit from 1 to 8.
fn word_of(text: &[u8]) -> Option<Word> {
    match text {
        b"encode" => Some(Word::Encode),
        b"correct" => Some(Word::Correct),
        b"--strict" => Some(Word::Strict),
        b"--help" => Some(Word::Help),
        b"--version" => Some(Word::Version),
        [digit @ b'1'..=b'8'] => Some(Word::Strength((*digit - b'0') as u16)),
        _ => None,
    }
}

// The word at a place; none where it is missing or too long to be known.
fn word_at(rt: &HostRuntime, i: usize) -> Option<Word> {
    let mut room = [0; LONGEST];
    let n = job_streams::word_at(rt, i, &mut room);
    word_of(&room[..n])
}

// The strength at a place, if one stands there.
fn strength_at(rt: &HostRuntime, i: usize) -> Option<u16> {
    match word_at(rt, i)? {
        Word::Strength(t) => Some(t),
        _ => None,
    }
}

// How many words the command line has, the program's name among them; 5 where there are more than 4.
fn count_words(rt: &HostRuntime) -> usize {
    for i in 1..5 {
        if !job_streams::has_word(rt, i) {
            return i;
        }
    }
    5
}

// What the command line asks for; none where that is nothing known.
pub fn read(rt: &HostRuntime) -> Option<Asked> {
    match (count_words(rt), word_at(rt, 1)?) {
        (2, Word::Help) => Some(Asked::Help),
        (2, Word::Version) => Some(Asked::Version),
        (3, Word::Encode) => Some(Asked::Encode(strength_at(rt, 2)?)),
        (3, Word::Correct) => Some(Asked::Correct {
            strength: strength_at(rt, 2)?,
            strict: false,
        }),
        (4, Word::Correct) if word_at(rt, 3) == Some(Word::Strict) => Some(Asked::Correct {
            strength: strength_at(rt, 2)?,
            strict: true,
        }),
        _ => None,
    }
}
