// The lines of job records (docs/RULES.md section 6): from what the reader gives, the text of the record's line, and
// where reading goes on.
#![tactic(auto)]

ghost use Rattle.std.specs.Prelude.{◌≡◌, []};
ghost use Rattle.refusals.specs.Numbers.{number_of};
ghost use Rattle.job_records.specs.Layout.{words};
ghost use Rattle.job_records.specs.Reading.{Stands};
ghost use Rattle.job_solve.specs.Solving.{cutoff_of, Accepted};
ghost use Rattle.job_lines.specs.Printing.{turned_line, solved_line, TurnedBy};

use arrayvec::ArrayString;
use input::LIMIT;
use job_records::{Job, Read};
use job_solve::solve_job;
use job_text::LINE;
use job_text::strings::put_line;
use refusals::Refusal;
use std::marker::Model;

// A record's line, empty where there is none, and the place where reading goes on; none where it is over.
#[derive(Drop)]
pub struct Turn {
    pub line: ArrayString<LINE>,
    pub next: Option<usize>,
}

impl Model for Turn {
    ghost use Rattle.job_lines.specs.Turn.{Turn as Seen};

    ghost Value = { Seen };

    ghost view = { λ t. record { text = t.line.bytes; next = t.next } };
}

// Puts the line of a refused record into a string that is empty.
fn put_turned(k: u32, refusal: Refusal, text: &mut ArrayString<LINE>)
    requires { text.old.bytes ≡ [] }
    ensures { text.new.bytes ≡ turned_line k (number_of refusal) }
{
    put_line(k, u16::from(refusal), 0, &[], text);
}

// Puts the line of an accepted record into a string that is empty.
fn put_solved(k: u32, job: Job, bytes: &[u8], text: &mut ArrayString<LINE>)
    requires { (text.old.bytes ≡ []) × Accepted job (words bytes.now) }
    ensures { text.new.bytes ≡ solved_line k job.m (cutoff_of job) (words bytes.now) }
{
    let mut roots = [0u16; LIMIT];
    let solved = solve_job(job, bytes, &mut roots);
    put_line(k, 0, solved.steps, &roots[..solved.s as usize], text);
}

// The line of what was read, with its coefficient bytes, and where reading goes on. The line is put where it is given
// from: as a value of its own it would be copied three times.
pub fn take_turn(read: Read, bytes: &[u8], k: u32) -> Turn
    requires { Stands read bytes.now }
    ensures { TurnedBy read bytes.now k result }
{
    let mut turn = Turn {
        line: ArrayString::new(),
        next: None,
    };
    match read {
        Read::End => {}
        Read::Stopped(refusal) => put_turned(k, refusal, &mut turn.line), // after 11 and 12 reading is over
        Read::Refused { refusal, next } => {
            put_turned(k, refusal, &mut turn.line);
            turn.next = Some(next); // after 1 to 6
        }
        Read::Record(job) => {
            put_solved(k, job, bytes, &mut turn.line);
            turn.next = Some(job.next);
        }
    }
    turn
}
