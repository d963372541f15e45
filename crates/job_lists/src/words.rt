// The numbers of a line: words of digits, in decimal, with blanks between.
ghost use Rattle.std.specs.Prelude.{◌≡◌, true, ◌-◌, ◌++◌, take};
ghost use Rattle.arrayvec.specs.ArrayVec.{array_vec_len};
ghost use Rattle.job_lists.specs.Lines.{is_digit, is_legible, legible, most_numbers, numbers_of};
ghost use Rattle.job_lists.specs.Words.{grown_word, held_list};

use arrayvec::ArrayVec;
use input::LIMIT;

// How many numbers of a line count (specs/Lines.antt `most_numbers`).
pub const MOST_NUMBERS: usize = 3 + LIMIT;

// Is the byte a digit or a blank?
#[tactic(auto, unfolding(crate::specs::Lines::is_digit, crate::specs::Lines::is_blank))]
fn is_legible(b: u8) -> bool
    ensures { result ≡ is_legible b }
{
    matches!(b, b'0'..=b'9' | b' ' | b'\t' | b'\r')
}

// Is every byte of the line a digit or a blank?
pub fn legible(line: &[u8]) -> bool
    ensures { result ≡ legible line.now }
{
    line.iter().all(|b| is_legible(*b))
}

// The number of the word that stands open, with one digit more. A number that is too high for 16 bits counts as the
// highest (specs/Lines.antt `highest_number`).
fn grow(word: Option<u16>, b: u8) -> Option<u16>
    requires { is_digit b ≡ true }
    ensures { result ≡ grown_word word b }
{
    let digit = (b - b'0') as u16;
    Some(word.unwrap_or(0).saturating_mul(10).saturating_add(digit))
}

// Puts the number of the word that stands open behind the others, unless that is one too many.
fn close(word: Option<u16>, list: &mut ArrayVec<u16, MOST_NUMBERS>)
    ensures { list.new.items ≡ list.old.items ++ take (most_numbers - array_vec_len list.old) (held_list word) }
{
    if let Some(x) = word {
        let _ = list.try_push(x);
    }
}

// The numbers of the line that count.
pub fn numbers(line: &[u8]) -> ArrayVec<u16, MOST_NUMBERS>
    ensures { result.items ≡ numbers_of line.now }
{
    let mut list = ArrayVec::new();
    let mut word = None;
    for b in line {
        if b.is_ascii_digit() {
            word = grow(word, *b);
        } else {
            close(word, &mut list);
            word = None;
        }
    }
    close(word, &mut list);
    list
}
