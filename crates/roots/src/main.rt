// Reads job records from standard input, at most 65,536 bytes, and prints the line of each (docs/RULES.md section 6).
// Where a read or a write fails, standard error says so and the program stops; at which record reading stopped, and that
// there is input past the limit, is said there too.
#![tactic(auto)]

ghost use Rattle.std.specs.Prelude.{◌≤◌, length, IfOk, IfSome};
ghost use Rattle.job_records.specs.Reading.{Stands};
ghost use Rattle.job_lines.specs.Printing.{Ahead};

use job_records::Read;
use job_records::held::Reader;
use job_streams::{Program, Told};

// Prints the line of what was read, and gives the place where reading goes on; none where it is over.
fn print_turn(program: &Program, read: Read, bytes: &[u8], k: u32) -> Result<Option<usize>, Told>
    requires { Stands read bytes.now }
    ensures { IfOk result (λ next. IfSome next (λ at. Ahead read bytes.now at)) }
{
    let turn = job_lines::take_turn(read, bytes, k);
    program.print(turn.line.as_str().as_bytes())?;
    Ok(turn.next)
}

// Prints the line of each record, by a reader that is made once and moved on. Gives the place behind the last, where
// there is no more to read; none where reading stopped before the end of the file.
fn print_records(program: &Program, file: &[u8]) -> Result<Option<usize>, Told>
    requires { length file.now ≤ 65536 }
    ensures { IfOk result (λ end. IfSome end (λ at. length file.now ≤ at)) }
{
    let mut reader = Reader::new(file, 0);
    let mut k = 1;
    while reader.at < file.len() {
        let read = reader.next();
        let Some(at) = print_turn(program, read, reader.bytes(read), k)? else {
            return Ok(None);
        };
        reader = reader.moved(at);
        k += 1;
    }
    Ok(Some(reader.at))
}

// Prints the lines of what was read, and says what was not.
fn print_lines(program: &Program, file: &[u8]) -> Result<(), Told>
    requires { length file.now ≤ 65536 }
{
    let end = print_records(program, file)?;
    if end.is_none() {
        if let Err(stop) = job_records::read_through(file) {
            program.tell_stop(stop);
        }
    }
    program.tell_behind(file.len());
    Ok(())
}

// Reads standard input into the room and prints its lines.
fn run(program: &Program, room: &mut [u8]) -> Result<(), Told> {
    let n = program.read_all(room)?;
    print_lines(program, &room[..n])
}

fn main(rt: HostRuntime) {
    let program = Program {
        rt: &rt,
        name: b"roots",
    };
    if !program.starts(
        b"roots <jobs.lr",
        b"Prints a line for each record of a job file: its number, 0 or the number of its refusal, and where it is\n\
accepted how many roots, the steps and the roots.\n",
    ) {
        return;
    }
    let mut buffer = job_streams::large_buffer();
    let _ = run(&program, &mut buffer);
}
