// Salvage of a damaged job file (docs/RULES.md section 11): at each place a record is kept if the reader accepts it
// there, and else one byte is dropped; behind a kept record it goes on.
#![tactic(auto)]

ghost use Rattle.job_salvage.specs.Calls.{NextIs, Salvages};

use job_records::{Read, read_record};
use job_text::put_bytes;
use refusals::Refusal;
use std::ops::Range;

pub mod report; // the lines that the program prints

// What salvage keeps: how many records, and how many bytes they are.
#[derive(Clone, Copy)]
pub struct Kept {
    pub records: usize,
    pub bytes: usize,
}

// Where the first record that is kept from a place of the file on stands: at the end of the file, and empty, where
// there is none. What stands between is dropped.
pub fn next_kept(file: &[u8], at: usize) -> Range<usize>
    ensures { NextIs file.now at result.start result.end }
{
    for start in at..file.len() {
        if let Read::Record(job) = read_record(file, start) {
            return start..job.next;
        }
    }
    file.len()..file.len()
}

// The records of the file that are kept, unaltered and in order, to the front of the room.
pub fn salvage(file: &[u8], room: &mut [u8]) -> Result<Kept, Refusal>
    ensures { Salvages file.now room.old result room.new }
{
    if room.len() < file.len() {
        return Err(Refusal::Room);
    }
    let mut at = 0;
    let mut records = 0;
    let mut bytes = 0;
    while at < file.len() {
        let next = next_kept(file, at);
        let record = &file[next.start..next.end];
        bytes = put_bytes(record, bytes, room);
        if !record.is_empty() {
            records += 1;
        }
        at = next.end;
    }
    Ok(Kept { records, bytes })
}
