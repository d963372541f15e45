// The text of a line (docs/RULES.md section 6.2): numbers in decimal with one space between, ended by a line feed. Here
// it is written to lent memory; in `strings` it is put together in a string.
#![tactic(auto)]

ghost use Rattle.std.specs.Prelude.{◌≡◌, ◌+◌, ◌*◌, ◌≤◌, [], ◌∷◌, length, take};
ghost use Rattle.job_text.specs.Lines.{decimal, spaced, line_of, line_room, Wrote};

use input::LIMIT;

pub mod strings; // the same in strings of fixed capacity

// The most bytes that a line has (specs/Lines.antt `longest_line`): it has as many roots as the limit.
pub const LINE: usize = 29 + 6 * LIMIT;

// Writes a byte to out at `at`; the place behind it.
pub fn put_byte(b: u8, at: usize, out: &mut [u8]) -> usize
    requires { at + 1 ≤ length out.old }
    ensures { Wrote (b ∷ []) at out.old result out.new }
{
    out[at] = b;
    at + 1
}

// Writes x in decimal to out from `at` on; the place behind it.
pub fn decimal(x: u64, at: usize, out: &mut [u8]) -> usize
    requires { at + length (decimal x) ≤ length out.old }
    ensures { Wrote (decimal x) at out.old result out.new }
{
    if x < 10 {
        return put_byte(48 + (x as u8), at, out);
    }
    let end = decimal(x / 10, at, out);
    put_byte(48 + ((x % 10) as u8), end, out)
}

// Writes bytes to out, which is as long.
fn store(bytes: &[u8], out: &mut [u8])
    requires { length bytes.now ≡ length out.old }
    ensures { out.new ≡ bytes.now }
{
    // kept: (a) the loop of slices `store`, which is of u16: `copy_from_slice` asks C for memmove here
    for i in 0..bytes.len() {
        out[i] = bytes[i];
    }
}

// Writes bytes to out from `at` on; the place behind them.
pub fn put_bytes(bytes: &[u8], at: usize, out: &mut [u8]) -> usize
    requires { at + length bytes.now ≤ length out.old }
    ensures { Wrote bytes.now at out.old result out.new }
{
    let end = at + bytes.len();
    store(bytes, &mut out[at..end]);
    end
}

// Writes a space and x in decimal to out from `at` on; the place behind them.
pub fn put_spaced(x: u64, at: usize, out: &mut [u8]) -> usize
    requires { at + 1 + length (decimal x) ≤ length out.old }
    ensures { Wrote (spaced (x ∷ [])) at out.old result out.new }
{
    let behind = put_byte(32, at, out);
    decimal(x, behind, out)
}

// Writes numbers, each behind a space, to out from `at` on; the place behind them.
pub fn put_numbers(xs: &[u64], at: usize, out: &mut [u8]) -> usize
    requires { at + 21 * length xs.now ≤ length out.old }
    ensures { Wrote (spaced xs.now) at out.old result out.new
        × (result ≤ at + 21 * length xs.now) }
{
    let mut end = at;
    for i in 0..xs.len() {
        end = put_spaced(xs[i], end, out);
    }
    end
}

// Writes the first s of the roots, each behind a space, to out from `at` on; the place behind them.
fn put_roots(s: usize, roots: &[u16], at: usize, out: &mut [u8]) -> usize
    requires { (s ≤ length roots.now) × (at + 6 * s ≤ length out.old) }
    ensures { Wrote (spaced (take s roots.now)) at out.old result out.new
        × (result ≤ at + 6 * s) }
{
    let mut end = at;
    for i in 0..s {
        end = put_spaced(roots[i] as u64, end, out);
    }
    end
}

// Writes the line of a record to the front of out: its number k, its outcome and, where that is 0, s, the steps and
// the first s of the roots.
// Its length.
pub fn line(k: u32, outcome: u16, s: u16, steps: u16, roots: &[u16], out: &mut [u8]) -> usize
    requires { (s ≤ length roots.now) × (line_room s ≤ length out.old) }
    ensures { Wrote (line_of k outcome steps (take s roots.now))
        0 out.old result out.new }
{
    let first = decimal(k as u64, 0, out);
    let second = put_spaced(outcome as u64, first, out);
    if outcome != 0 {
        return put_byte(10, second, out);
    }
    let third = put_spaced(s as u64, second, out);
    let fourth = put_spaced(steps as u64, third, out);
    let end = put_roots(s as usize, roots, fourth, out);
    put_byte(10, end, out)
}
