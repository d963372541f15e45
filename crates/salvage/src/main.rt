// Keeps what can be kept of a damaged job file (docs/RULES.md section 11.3): reads standard input as `roots` does,
// puts the records that are kept into the file kept.lr of the folder that it runs in, and prints the dropped
// stretches and how many records are kept. A kept.lr that is there already gives way, and is not lost.
#![tactic(auto)]

ghost use Rattle.std.specs.Prelude.{◌≤◌, length, IsAscii};
ghost use Rattle.arrayvec.specs.ArrayString.{array_string_len};

use arrayvec::ArrayString;
use job_streams::{Program, Told};
use std::fs::File;
use std::io::{ErrorKind, Read, Write};
use std::{fs, io};

// How many names there are for a kept.lr that gives way: kept.lr.old, kept.lr.old.2, .. kept.lr.old.99.
const OLD_NAMES: u8 = 99;

// Room for the bytes of each of these names.
const OLD_NAME: usize = 32;

// Passes a result on; where it is an error, that is told, behind what it is of.
fn told(program: &Program, what: &[u8], done: io::Result<()>) -> Result<(), Told> {
    match done {
        Ok(()) => Ok(()),
        Err(error) => Err(program.tell_error(what, error)),
    }
}

// Writes the bytes to a file that is empty, to its device, and closes it. What fails is told.
fn fill(program: &Program, mut file: File, bytes: &[u8]) -> Result<(), Told> {
    told(program, b"salvage: kept.lr.new", file.write_all(bytes))?;
    told(program, b"salvage: kept.lr.new", file.sync_all())
}

// Says that kept.lr.new could not be made. One that is there already is another run's, and stays.
fn tell_not_made(program: &Program, error: io::Error) -> Told {
    let kind = error.kind();
    let told = program.tell_error(b"salvage: kept.lr.new", error);
    if kind == ErrorKind::AlreadyExists {
        program.say(
            b"salvage: another run is at work here, or one was stopped: look at kept.lr.new and remove it\n",
        );
    }
    told
}

// Removes a file; where that fails, it stays.
fn remove(program: &Program, name: &str) {
    let _ = fs::remove_file(program.rt, name);
}

// Makes kept.lr.new with these bytes. What fails is told.
fn write_new(program: &Program, bytes: &[u8]) -> Result<(), Told> {
    match File::create_new(program.rt, "kept.lr.new") {
        Err(error) => Err(tell_not_made(program, error)),
        Ok(file) => {
            let done = fill(program, file, bytes);
            if done.is_err() {
                remove(program, "kept.lr.new");
            }
            done
        }
    }
}

// Reads until the room is full, the file ends or a read fails, and tells how many bytes came.
fn read_full(file: &mut File, room: &mut [u8]) -> usize
    ensures { result ≤ length room.new }
{
    let mut done = 0;
    while done < room.len() {
        match file.read(&mut room[done..]) {
            Err(_) | Ok(0) => break,
            Ok(more) => done += more,
        }
    }
    done
}

// Does an open file hold these bytes, and no more?
fn holds(file: &mut File, bytes: &[u8]) -> bool {
    let mut room = job_streams::large_buffer();
    let n = read_full(file, &mut room);
    if !job_streams::same(&room[..n], bytes) {
        return false;
    }
    let mut one = [0u8; 1];
    matches!(file.read(&mut one), Ok(0))
}

// Does something stand under the name kept.lr that is not these very bytes? What cannot be read is something else.
fn has_other(program: &Program, bytes: &[u8]) -> bool {
    match File::open(program.rt, "kept.lr") {
        Err(error) => error.kind() != ErrorKind::NotFound,
        Ok(mut file) => !holds(&mut file, bytes),
    }
}

// The k-th name for a kept.lr that gives way.
fn old_name(k: u8) -> ArrayString<OLD_NAME>
    requires { k ≤ 99 }
    ensures len { array_string_len result ≤ 14 }
    ensures ascii { IsAscii result.bytes }
{
    let mut name = ArrayString::new();
    name.push_str("kept.lr.old");
    if k > 1 {
        name.push_str(".");
        job_text::strings::decimal(k as u64, &mut name);
    }
    name
}

// Moves kept.lr to a name that no file had. What fails is told.
fn move_old(program: &Program, name: &str) -> Result<(), Told> {
    let moved = told(
        program,
        b"salvage: kept.lr",
        fs::rename(program.rt, "kept.lr", name),
    );
    if moved.is_err() {
        remove(program, name);
        return moved;
    }
    program.say(b"salvage: the kept.lr that was here is ");
    program.say(name.as_bytes());
    program.say(b" now\n");
    Ok(())
}

// Makes an empty file of a name that no file has.
fn make_empty(program: &Program, name: &str) -> io::Result<()> {
    File::create_new(program.rt, name)?;
    Ok(())
}

// Tries to keep kept.lr under its k-th other name; false where another file has that. The name is taken by a file that
// must be new, so that nothing that stands there is lost. What fails is told.
fn keep_under(program: &Program, k: u8) -> Result<bool, Told>
    requires { k ≤ 99 }
{
    let name = old_name(k);
    if let Err(error) = make_empty(program, name.as_str()) {
        if error.kind() == ErrorKind::AlreadyExists {
            return Ok(false);
        }
        return Err(program.tell_error(b"salvage: kept.lr.old", error));
    }
    move_old(program, name.as_str())?;
    Ok(true)
}

// Keeps kept.lr under the first of its other names that is free. What fails is told.
fn keep_old(program: &Program) -> Result<(), Told> {
    for k in 1..=OLD_NAMES {
        if keep_under(program, k)? {
            return Ok(());
        }
    }
    program.say(b"salvage: kept.lr.old to kept.lr.old.99 are all there: remove some of them\n");
    Err(Told)
}

// Makes room for a new kept.lr: one of another content goes on under another name. What fails is told.
fn give_way(program: &Program, bytes: &[u8]) -> Result<(), Told> {
    if has_other(program, bytes) {
        return keep_old(program);
    }
    Ok(())
}

// Gives kept.lr.new the name kept.lr. What fails is told.
fn take_name(program: &Program, bytes: &[u8]) -> Result<(), Told> {
    give_way(program, bytes)?;
    told(
        program,
        b"salvage: kept.lr",
        fs::rename(program.rt, "kept.lr.new", "kept.lr"),
    )
}

// Puts the bytes into kept.lr. They are written under another name first, and an old kept.lr stays whole until they
// are all there. What fails is told.
fn write_kept(program: &Program, bytes: &[u8]) -> Result<(), Told> {
    write_new(program, bytes)?;
    let named = take_name(program, bytes);
    if named.is_err() {
        remove(program, "kept.lr.new");
    }
    named
}

// Prints the line of each dropped stretch, in file order. What fails is told.
fn print_stretches(program: &Program, file: &[u8]) -> Result<(), Told>
    requires { length file.now ≤ 65536 }
{
    let mut at = 0;
    while at < file.len() {
        let next = job_salvage::next_kept(file, at);
        if at < next.start {
            let row = job_salvage::report::stretch_row(at as u32, (next.start - at) as u32);
            program.print(row.as_str().as_bytes())?;
        }
        at = next.end;
    }
    Ok(())
}

// Prints the number of records kept. What fails is told.
fn print_count(program: &Program, records: u32) -> Result<(), Told> {
    let row = job_salvage::report::count_row(records);
    program.print(row.as_str().as_bytes())
}

// Keeps what can be kept of what was read. What fails is told.
fn keep(program: &Program, file: &[u8]) -> Result<(), Told>
    requires { length file.now ≤ 65536 }
{
    let mut room = job_streams::large_buffer();
    // the room is as long as any file
    let kept = job_salvage::salvage(file, &mut room).unwrap();
    write_kept(program, &room[..kept.bytes])?;
    print_stretches(program, file)?;
    let _ = print_count(program, kept.records as u32);
    Ok(())
}

// Reads standard input into the room, keeps what can be kept, and tells if there is more behind it. What fails is
// told.
fn run(program: &Program, room: &mut [u8]) -> Result<(), Told> {
    let n = program.read_all(room)?;
    keep(program, &room[..n])?;
    program.tell_behind(n);
    Ok(())
}

fn main(rt: HostRuntime) {
    let program = Program {
        rt: &rt,
        name: b"salvage",
    };
    if !program.starts(
        b"salvage <damaged.lr",
        b"Puts the records of a damaged job file that can be kept into kept.lr, and prints the start and length of each\n\
stretch that was dropped, and last how many records were kept. A kept.lr that is there already is kept.lr.old then.\n",
    ) {
        return;
    }
    let mut buffer = job_streams::large_buffer();
    let _ = run(&program, &mut buffer);
}
