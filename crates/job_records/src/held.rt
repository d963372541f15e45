// The file's slice and a place in it in one struct. The program `roots` walks with it.
ghost use Rattle.std.specs.Prelude.{◌≡◌};
ghost use Rattle.job_records.specs.Reading.{told_read, read_at, bytes_of};

use crate::{Read, body_of, read_record};

// A reader: the lent file and the place where it stands.
#[derive(Clone, Copy)]
pub struct Reader<'a> {
    pub file: &'a [u8],
    pub at: usize,
}

impl<'a> Reader<'a> {
    // A reader at a place of a file.
    pub fn new(file: &'a [u8], at: usize) -> Reader<'a>
        ensures { (result.file ≡ file.entry) × (result.at ≡ at) }
    {
        Reader { file, at }
    }

    // What stands at the reader's place.
    pub fn next(self) -> Read
        ensures { told_read result ≡ read_at self.entry.file.now self.entry.at }
    {
        read_record(self.file, self.at)
    }

    // The coefficient bytes of what was read, as that part of the reader's file.
    pub fn bytes(self, read: Read) -> &'a [u8]
        ensures { result.now ≡ bytes_of self.entry.file.now read }
    {
        body_of(self.file, read)
    }

    // The reader at another place of the same file.
    pub fn moved(self, at: usize) -> Reader<'a>
        ensures { (result.file ≡ self.entry.file) × (result.at ≡ at) }
    {
        Reader { at, ..self }
    }
}
