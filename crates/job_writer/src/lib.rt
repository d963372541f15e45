// Writing records from roots (docs/RULES.md section 12): the record of the monic polynomial that has exactly the given
// simple roots. The polynomial is the product of z + r over the roots; of no root it is 1 and of one root z + r, and
// no table is made. The head and the coefficients then go to the front of the room, two bytes a coefficient.
#![tactic(auto)]

ghost use Rattle.std.specs.Prelude.{◌≡◌, ◌+◌, ◌*◌, ◌≤◌, length};
ghost use Rattle.refusals.specs.Admitting.{Admits};
ghost use Rattle.slices.specs.Lists.{copied};
ghost use Rattle.job_text.specs.Lines.{Wrote};
ghost use Rattle.job_records.specs.Layout.{head_length};
ghost use Rattle.job_writer.specs.Records.{root_polynomial, word_bytes};
ghost use Rattle.job_writer.specs.Calls.{ascends, write_tests, Writes, Writable};
ghost use Rattle.job_writer.specs.Writing.{head_of, Expandable, Recorded};

use field::rows::row_of;
use field_tables::constants::tables_of;
use input::{COEFFICIENTS, HIGHEST_CUTOFF, LIMIT};
use job_records::{HEAD, MARK};
use poly::product::product_over;
use refusals::Refusal;
use slices::all_below;

// The most bytes that a record has: its head, and two for each coefficient.
pub const RECORD: usize = HEAD + 2 * COEFFICIENTS;

// Each root is below the next.
fn ascending(roots: &[u16]) -> bool
    ensures { result ≡ ascends roots.now }
{
    roots.is_sorted_by(|a, b| a < b)
}

// Refusals 1, 3, 4, 25, 6 and 7, of the field, the roots, the cutoff and the lent bytes.
fn admit(m: u16, cutoff: u16, roots: &[u16], room: usize) -> Result<(), Refusal>
    ensures { Admits (write_tests m cutoff roots.now room) result }
{
    let row = row_of(m).ok_or(Refusal::Field)?;
    if LIMIT < roots.len() {
        return Err(Refusal::Long);
    }
    if !all_below(roots, row.size) {
        return Err(Refusal::Element);
    }
    if !ascending(roots) {
        return Err(Refusal::Order);
    }
    if HIGHEST_CUTOFF < cutoff {
        return Err(Refusal::Cutoff);
    }
    if room < HEAD + 2 * (roots.len() + 1) {
        return Err(Refusal::Room);
    }
    Ok(())
}

// Writes the polynomial of the roots to the front of f: one coefficient more than there are roots. What stands behind
// is not written.
fn polynomial(m: u16, roots: &[u16], f: &mut [u16])
    requires { Expandable m roots.now f.old }
    ensures { f.new ≡ copied (root_polynomial m roots.now) f.old }
{
    match roots {
        [] => f[0] = 1,
        [root] => f[..2].copy_from_slice(&[*root, 1]),
        _ => product_over(&tables_of(m), roots, f),
    }
}

// Writes the mark, m, the cutoff and n to the front of the room.
fn put_head(m: u8, cutoff: u8, n: u8, room: &mut [u8])
    requires { head_length ≤ length room.old }
    ensures { room.new ≡ copied (head_of m cutoff n) room.old }
{
    room[..HEAD].copy_from_slice(&[MARK[0], MARK[1], m, cutoff, n]);
}

// Writes words to the room from a place on, two bytes each, the low byte first; the place behind them.
fn put_words(words: &[u16], at: usize, room: &mut [u8]) -> usize
    requires { at + 2 * length words.now ≤ length room.old }
    ensures { Wrote (word_bytes words.now) at room.old result room.new }
{
    let mut end = at;
    for w in words {
        room[end..end + 2].copy_from_slice(&w.to_le_bytes());
        end += 2;
    }
    end
}

// The record of what was let in, to the front of the room; its length.
fn record(m: u16, cutoff: u16, roots: &[u16], room: &mut [u8]) -> u16
    requires { Writable m cutoff roots.now room.old }
    ensures { Recorded m cutoff roots.now room.old result room.new }
{
    let n = roots.len() + 1;
    let mut f = [0u16; COEFFICIENTS];
    polynomial(m, roots, &mut f);
    put_head(m as u8, cutoff as u8, n as u8, room);
    put_words(&f[..n], HEAD, room) as u16
}

// Writes the record of the field of degree m, the cutoff and the roots to the front of the room;
// how many bytes it has.
pub fn write(m: u16, cutoff: u16, roots: &[u16], room: &mut [u8]) -> Result<u16, Refusal>
    ensures { Writes m cutoff roots.now room.old result room.new }
{
    admit(m, cutoff, roots, room.len())?;
    Ok(record(m, cutoff, roots, room))
}
