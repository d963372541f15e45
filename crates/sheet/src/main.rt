// Prints the monthly sheet of a job file (docs/RULES.md section 13.4): reads standard input as `roots` does, and
// prints the names of the columns, a line for each field, and how many outcomes were 1, 11 and 12. Standard error says
// what `roots` says there.
#![tactic(auto)]

ghost use Rattle.std.specs.Prelude.{◌≤◌, length};
ghost use Rattle.algebra.specs.Trial.{All};
ghost use Rattle.job_sheet.specs.Text.{FitsLine};

use field::rows::{FIELDS, ROWS};
use job_sheet::{FieldLine, Sheet};
use job_streams::{Program, Told};

// Prints the line of the field of degree m. What fails is told.
fn print_field(program: &Program, m: u16, line: FieldLine) -> Result<(), Told>
    requires { FitsLine line }
{
    let text = job_sheet::text::field_line(m, line);
    program.print(text.as_str().as_bytes())
}

// Prints the line of each field, ascending. What fails is told.
fn print_fields(program: &Program, lines: [FieldLine; FIELDS]) -> Result<(), Told>
    requires { All FitsLine lines }
{
    for i in 0..FIELDS {
        print_field(program, ROWS[i].degree, lines[i])?;
    }
    Ok(())
}

// Prints how many outcomes were 1, 11 and 12. What fails is told.
fn print_apart(program: &Program, sheet: Sheet) -> Result<(), Told> {
    let text = job_sheet::text::apart_line(sheet.unknown, sheet.mark, sheet.short);
    program.print(text.as_str().as_bytes())
}

// Prints the lines of a sheet. What fails is told.
fn print_lines(program: &Program, sheet: Sheet) -> Result<(), Told>
    requires { All FitsLine sheet.lines }
{
    program.print(b"field accepted 2 3 4 5 6 roots steps record its-steps its-limit\n")?;
    print_fields(program, sheet.lines)?;
    print_apart(program, sheet)
}

// Prints the sheet of what was read, and says what was not read.
fn print_sheet(program: &Program, file: &[u8]) -> Result<(), Told>
    requires { length file.now ≤ 65536 }
{
    let sheet = job_sheet::sheet_of(file);
    print_lines(program, sheet)?;
    if sheet.mark > 0 || sheet.short > 0 {
        if let Err(stop) = job_records::read_through(file) {
            program.tell_stop(stop);
        }
    }
    program.tell_behind(file.len());
    Ok(())
}

// Reads standard input into the room and prints its sheet.
fn run(program: &Program, room: &mut [u8]) -> Result<(), Told> {
    let n = program.read_all(room)?;
    print_sheet(program, &room[..n])
}

fn main(rt: HostRuntime) {
    let program = Program {
        rt: &rt,
        name: b"sheet",
    };
    if !program.starts(
        b"sheet <jobs.lr",
        b"Prints for each field how many records of a job file are accepted and refused, and their roots and steps.\n",
    ) {
        return;
    }
    let mut buffer = job_streams::large_buffer();
    let _ = run(&program, &mut buffer);
}
