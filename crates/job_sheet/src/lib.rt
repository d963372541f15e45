// The monthly sheet of a job file in exact figures (docs/RULES.md section 13): for each field the records accepted and
// refused, their roots and steps, and the record whose steps stand highest against their limit.
#![tactic(auto)]

ghost use Rattle.std.specs.Prelude.{◌≡◌, ◌+◌, ◌*◌, ◌^◌, ◌<◌, true};
ghost use Rattle.field.specs.Rows.{known};
ghost use Rattle.job_sheet.specs.Figures.{higher};
ghost use Rattle.job_sheet.specs.Calls.{told_peak, told_highest, told_field, Sheets};
ghost use Rattle.job_sheet.specs.Adding.{place_of, risen, no_figures, with_accepted, with_refused};
ghost use Rattle.job_sheet.specs.Adding.{ended_sheet, stop_number};
ghost use Rattle.job_sheet.specs.Adding.{JobStands, CountedIs, RoomForRecord, RoomForRefusal};

use field::rows::{FIELDS, ROWS};
use input::LIMIT;
use job_records::{Job, Read, read_record};
use job_solve::{cutoff_in_force, solve_job};
use refusals::Refusal;
use table_slots::step_limit;

pub mod text; // the lines that the program `sheet` prints

// How many numbers a record of a known field is refused under: 2 to 6.
pub const REFUSALS: usize = 5;

// The record whose steps stand highest against their limit: its number in the file from 1, its steps and its limit.
#[derive(Clone, Copy)]
pub struct Highest {
    pub record_number: u64,
    pub steps: u16,
    pub limit: u16,
}

// What the sheet has of a field: refused under 2, 3, 4, 5 and 6. A file of 2^64 bytes may need more steps than one word
// holds.
#[derive(Clone, Copy)]
pub struct FieldLine {
    pub accepted: u64,
    pub refused: [u64; REFUSALS],
    pub roots: u64,
    pub steps: u128,
    pub highest: Option<Highest>,
}

// The sheet of a file: a line for each field, ascending, and how many outcomes were 1, 11 and 12.
#[derive(Clone, Copy)]
pub struct Sheet {
    pub lines: [FieldLine; FIELDS],
    pub unknown: u64,
    pub mark: u64,
    pub short: u64,
}

// What an accepted record counts: its roots, its steps and the limit of its steps.
#[derive(Drop)]
struct Counted {
    roots: u16,
    steps: u16,
    limit: u16,
}

// The place of a known field's line: that of its row.
fn place_of(m: u16) -> usize
    requires { known m ≡ true }
    ensures { result ≡ place_of m }
{
    ROWS.iter().position(|row| row.degree == m).unwrap()
}

// Steps of one record by the limit of another.
fn crossed(steps: u16, limit: u16) -> u32
    requires { steps * limit < 2 ^ 32 }
    ensures { result ≡ steps * limit }
{
    (steps as u32) * (limit as u32)
}

// The higher of two against their limits, the first where they stand equally high.
fn higher(a: Highest, b: Highest) -> Highest
    ensures { told_peak result ≡ higher (told_peak a) (told_peak b) }
{
    if crossed(a.steps, b.limit) < crossed(b.steps, a.limit) {
        return b;
    }
    a
}

// The highest with one record more, which competes where it has a limit.
fn risen(a: Option<Highest>, b: Highest) -> Option<Highest>
    ensures { told_highest result ≡ risen (told_highest a) (told_peak b) }
{
    if 0 < b.limit {
        return match a {
            None => Some(b),
            Some(a) => Some(higher(a, b)),
        };
    }
    a
}

// A field's line with one accepted record more, the k-th of the file.
fn with_accepted(line: FieldLine, k: u64, c: Counted) -> FieldLine
    requires { RoomForRecord line c }
    ensures { told_field result ≡ with_accepted (told_field line) k c.roots c.steps c.limit }
{
    let this = Highest {
        record_number: k,
        steps: c.steps,
        limit: c.limit,
    };
    let highest = risen(line.highest, this);
    FieldLine {
        accepted: line.accepted + 1,
        roots: line.roots + (c.roots as u64),
        steps: line.steps + (c.steps as u128),
        highest,
        ..line
    }
}

// A field's line with one record more that is refused under a number from 2 to 6.
fn with_refused(line: FieldLine, number: u16) -> FieldLine
    requires { RoomForRefusal line number }
    ensures { told_field result ≡ with_refused (told_field line) number }
{
    let i = (number as usize) - 2;
    let mut more = line;
    more.refused[i] += 1;
    more
}

// What an accepted record of the file counts: it is solved once.
fn count_job(file: &[u8], job: Job) -> Counted
    requires { JobStands file.now job }
    ensures { CountedIs file.now job result }
{
    let bytes = job_records::body(file, job.start, job.len);
    let mut roots = [0u16; LIMIT];
    let done = solve_job(job, bytes, &mut roots);
    let limit = step_limit(job.m as u16, cutoff_in_force(job), done.s as usize);
    Counted {
        roots: done.s,
        steps: done.steps,
        limit: limit as u16,
    }
}

// A line with nothing counted.
fn empty_line() -> FieldLine
    ensures { told_field result ≡ no_figures }
{
    FieldLine {
        accepted: 0,
        refused: [0; REFUSALS],
        roots: 0,
        steps: 0,
        highest: None,
    }
}

// The sheet where reading ends, or stops under a refusal.
fn ended(lines: [FieldLine; FIELDS], unknown: u64, stop: Option<Refusal>) -> Sheet
    ensures { result ≡ ended_sheet lines unknown (stop_number stop) }
{
    Sheet {
        lines,
        unknown,
        mark: u64::from(stop == Some(Refusal::Mark)),
        short: u64::from(stop == Some(Refusal::Short)),
    }
}

// The sheet of a job file of any length.
pub fn sheet_of(file: &[u8]) -> Sheet
    ensures { Sheets file.now result }
{
    let mut lines = [empty_line(); FIELDS];
    let mut unknown: u64 = 0;
    let mut at = 0;
    let mut k: u64 = 0; // how many were read
    // kept: (d) the next place comes from what was read, so no range or chain counts here
    loop {
        let read = read_record(file, at);
        k += 1;
        match read {
            Read::End => return ended(lines, unknown, None),
            Read::Stopped(refusal) => return ended(lines, unknown, Some(refusal)),
            Read::Refused { refusal, next } => {
                let number = u16::from(refusal);
                if number == 1 {
                    unknown += 1;
                } else {
                    let i = place_of(job_records::degree_byte(file, at) as u16);
                    lines[i] = with_refused(lines[i], number);
                }
                at = next;
            }
            Read::Record(job) => {
                let i = place_of(job.m as u16);
                lines[i] = with_accepted(lines[i], k, count_job(file, job));
                at = job.next;
            }
        }
    }
}
