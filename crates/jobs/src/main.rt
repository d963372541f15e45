// Job records from a list of roots (docs/RULES.md section 12.3): reads lines of decimal numbers, `m cutoff root root ..`,
// from standard input, and writes the record of each line to standard output, so that `jobs <list | roots` shows the
// roots again. Of a line that asks for no record, or that is cut off, nothing is written; standard error says which line
// it is, and why.
#![tactic(auto)]

ghost use Rattle.std.specs.Prelude.{◌≡◌, ◌≤◌, length, IfOk};
ghost use Rattle.job_lists.specs.Lines.{line_end};

use job_lists::Listed;
use job_streams::{Behind, Program, Told};
use job_writer::RECORD;
use refusals::Refusal;

// Why no more lines are taken: one is cut off, or a record could not be written. Either is told.
#[derive(Clone, Copy)]
enum Halt {
    CutOff,
    Failed(Told),
}

// Says which line is meant. A text is said piece by piece: where one piece cannot be said, the next is tried.
fn tell_line(program: &Program, k: u32) {
    program.say(b"jobs: line ");
    program.say_number(k as u64);
}

// Says that the line k asks for no record that can be read.
fn tell_illegible(program: &Program, k: u32) {
    tell_line(program, k);
    program.say(b": not decimal numbers: m, a cutoff and roots\n");
}

// Says that the line k is cut off where the program stops reading.
fn tell_cut(program: &Program, k: u32) {
    tell_line(program, k);
    program.say(
        b" is cut off at byte 65,536: no record of it was written; the rest was not read\n",
    );
}

// Says under which number the line k is refused.
fn tell_refused(program: &Program, k: u32, refusal: Refusal) {
    tell_line(program, k);
    program.say(b": refused under ");
    program.say_number(u16::from(refusal) as u64);
    program.say(b"\n");
}

// Writes a record to standard output; that it could not be written is told.
fn print_record(program: &Program, bytes: &[u8]) -> Result<(), Halt> {
    program.print(bytes).map_err(Halt::Failed)
}

// Writes the record that the line at a place asks for, which is the line k, or says why there is none; where the line
// ends. Where `ended` holds the input ends with the text.
fn take_line(program: &Program, text: &[u8], at: usize, ended: bool, k: u32) -> Result<usize, Halt>
    requires { at ≤ length text.now }
    ensures { IfOk result (λ end. end ≡ line_end text.now at) }
{
    let mut room = [0u8; RECORD];
    let line = job_lists::record_at(text, at, ended, &mut room);
    match line.listed {
        Listed::Blank => {}
        Listed::CutOff => {
            tell_cut(program, k);
            return Err(Halt::CutOff);
        }
        Listed::Illegible => tell_illegible(program, k),
        Listed::Answer(answer) => match answer {
            Err(refusal) => tell_refused(program, k, refusal),
            Ok(bytes) => print_record(program, &room[..bytes as usize])?,
        },
    }
    Ok(line.end)
}

// Takes each line of the text, in order, up to one that is cut off or whose record could not be written.
fn take_lines(program: &Program, text: &[u8], ended: bool) -> Result<(), Halt>
    requires { length text.now ≤ 65536 }
{
    let mut at = 0;
    let mut k = 1;
    while at < text.len() {
        at = take_line(program, text, at, ended, k)? + 1;
        k += 1;
    }
    Ok(())
}

// Takes the lines of a text behind which there is more input, and says that it is ignored unless a line is cut off there.
fn take_front(program: &Program, text: &[u8])
    requires { length text.now ≤ 65536 }
{
    if take_lines(program, text, false).is_ok() {
        program.tell_ignored();
    }
}

// Reads standard input into the room and takes its lines. Where it is not known whether the input ends, a last line
// without a line feed is not known to be whole.
fn run(program: &Program, room: &mut [u8]) {
    let Ok(n) = program.read_all(room) else {
        return;
    };
    let text = &room[..n];
    let behind = program.ask_behind(n);
    if let Behind::More = behind {
        take_front(program, text);
    } else {
        let ended = matches!(behind, Behind::Nothing);
        let _ = take_lines(program, text, ended);
    }
}

fn main(rt: HostRuntime) {
    let program = Program {
        rt: &rt,
        name: b"jobs",
    };
    if !program.starts(
        b"jobs <list >jobs.lr",
        b"Writes the job record of each line of a list of roots: m, a cutoff and up to 64 ascending roots, in decimal.\n",
    ) {
        return;
    }
    let mut buffer = job_streams::large_buffer();
    run(&program, &mut buffer);
}
