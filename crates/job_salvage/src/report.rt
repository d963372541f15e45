// The lines that the program `salvage` prints (docs/RULES.md section 11.3): numbers in decimal, one space between,
// ended by a line feed.
ghost use Rattle.std.specs.Prelude.{◌≡◌};
ghost use Rattle.job_salvage.specs.Rows.{stretch_row, count_row};

use arrayvec::ArrayString;
use job_text::strings::{decimal, put_spaced};

// The most bytes that a line has (specs/Rows.antt `row_room`).
pub const ROW: usize = 22;

// The line of a dropped stretch.
pub fn stretch_row(start: u32, len: u32) -> ArrayString<ROW>
    ensures { result.bytes ≡ stretch_row start len }
{
    let mut text = ArrayString::new();
    decimal(start as u64, &mut text);
    put_spaced(len as u64, &mut text);
    text.push_str("\n");
    text
}

// The line of the number of records kept.
pub fn count_row(n: u32) -> ArrayString<ROW>
    ensures { result.bytes ≡ count_row n }
{
    let mut text = ArrayString::new();
    decimal(n as u64, &mut text);
    text.push_str("\n");
    text
}
