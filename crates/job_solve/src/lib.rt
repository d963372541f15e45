// An accepted job record is solved (docs/RULES.md sections 3.4 and 5.3): its coefficients are spelled, its cutoff is
// resolved, and the engine of the whole call finds its roots. The lines of records and the sheet come from here.
#![tactic(auto)]

ghost use Rattle.std.specs.Prelude.{◌≡◌, ◌≤◌, length};
ghost use Rattle.input.specs.Cutoff.{in_force};
ghost use Rattle.input.specs.Limit.{limit};
ghost use Rattle.find_solve.specs.Solving.{SolvedOut};
ghost use Rattle.job_records.specs.Layout.{words};
ghost use Rattle.job_solve.specs.Solving.{cutoff_of, Accepted};

use find_solve::{Solved, solve_in};
use input::{COEFFICIENTS, in_force};
use job_records::Job;

// The cutoff in force for a record.
pub fn cutoff_in_force(job: Job) -> u16
    ensures { result ≡ in_force (cutoff_of job) }
{
    in_force(job_records::asked(job.cutoff))
}

// The roots of an accepted record with these coefficient bytes, at the front of the list; how many, and the steps.
pub fn solve_job(job: Job, bytes: &[u8], roots: &mut [u16]) -> Solved
    requires { Accepted job (words bytes.now) × (limit ≤ length roots.old) }
    ensures { SolvedOut job.m (in_force (cutoff_of job)) (words bytes.now)
        roots.old result roots.new }
{
    let mut room = [0u16; COEFFICIENTS];
    let n = job_records::coefficients(bytes, &mut room);
    solve_in(job.m as u16, cutoff_in_force(job), &room[..n], roots)
}
