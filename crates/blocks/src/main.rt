// Data into words that stand up to wrong bits, and back (docs/RULES.md section 7.4): `blocks encode T` and
// `blocks correct T` go from standard input to standard output, word by word, however long the input is.
#![tactic(auto)]

use arguments::Asked;
use job_streams::Program;

mod arguments; // what the command line asks for
mod correcting; // words to data
mod encoding; // data to words
mod messages; // what is said of words, and of the program

fn main(rt: HostRuntime) {
    let program = Program {
        rt: &rt,
        name: b"blocks",
    };
    match arguments::read(&rt) {
        Some(Asked::Encode(strength)) => encoding::run(&program, strength),
        Some(Asked::Correct { strength, strict }) => correcting::run(&program, strength, strict),
        Some(Asked::Help) => messages::print_help(&program),
        Some(Asked::Version) => program.print_version(),
        None => messages::tell_usage(&program),
    }
}
