// The lines that the program `sheet` prints (docs/RULES.md section 13.4): numbers in decimal, one space between, ended
// by a line feed.
ghost use Rattle.std.specs.Prelude.{◌≡◌, ◌+◌, ◌*◌, ◌≤◌, [], ◌∷◌, ◌++◌, length};
ghost use Rattle.arrayvec.specs.ArrayString.{array_string_len};
ghost use Rattle.job_text.specs.Lines.{spaced};
ghost use Rattle.job_sheet.specs.Calls.{told_highest, told_field};
ghost use Rattle.job_sheet.specs.Text.{highest_text, field_text, apart_text, field_room, apart_room};
ghost use Rattle.job_sheet.specs.Text.{FitsLine};

use crate::{FieldLine, Highest};
use arrayvec::ArrayString;
use job_text::strings::{decimal, put_numbers, put_spaced};

// The most bytes that a line has (specs/Text.antt `field_room`).
pub const FIELD_LINE: usize = 6 + 21 * 11;

pub const APART_LINE: usize = 19 + 21 * 3;

// Puts the highest record, or three dashes, behind the text.
fn put_highest(highest: Option<Highest>, text: &mut ArrayString<FIELD_LINE>)
    requires { array_string_len text.old + 21 * 3 ≤ field_room }
    ensures { (text.new.bytes ≡ text.old.bytes ++ highest_text (told_highest highest))
        × (array_string_len text.new ≤ array_string_len text.old + 21 * 3) }
{
    match highest {
        None => text.push_str(" - - -"),
        Some(h) => put_numbers(&[h.record_number, h.steps as u64, h.limit as u64], text),
    }
}

// The line of the field of degree m.
pub fn field_line(m: u16, line: FieldLine) -> ArrayString<FIELD_LINE>
    requires { FitsLine line }
    ensures { result.bytes ≡ field_text m (told_field line) }
{
    let refused = line.refused;
    let mut text = ArrayString::new();
    decimal(m as u64, &mut text);
    put_spaced(line.accepted, &mut text);
    put_numbers(&refused, &mut text);
    put_spaced(line.roots, &mut text);
    put_spaced(line.steps as u64, &mut text);
    put_highest(line.highest, &mut text);
    text.push_str("\n");
    text
}

// Puts a word, and a number behind a space, behind the text.
fn put_labelled(word: &str, x: u64, text: &mut ArrayString<APART_LINE>)
    requires { array_string_len text.old + length word.now + 21 ≤ apart_room }
    ensures { text.new.bytes ≡ text.old.bytes ++ (word.now ++ spaced (x ∷ [])) }
{
    text.push_str(word);
    put_spaced(x, text);
}

// The last line: how many outcomes were 1, 11 and 12.
pub fn apart_line(unknown: u64, mark: u64, short: u64) -> ArrayString<APART_LINE>
    ensures { result.bytes ≡ apart_text unknown mark short }
{
    let mut text = ArrayString::new();
    put_labelled("unknown", unknown, &mut text);
    put_labelled(" mark", mark, &mut text);
    put_labelled(" short", short, &mut text);
    text.push_str("\n");
    text
}
