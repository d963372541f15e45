// Each constant table, named once: it lies in read-only memory, and each naming is proved entry by entry. A table's
// function takes the degree m for which the table is lent, and its contract speaks of the field of degree m.
ghost use Rattle.std.specs.Prelude.{◌≡◌, true};
ghost use Rattle.field.specs.Rows.{known};
ghost use Rattle.field.specs.Field.{field_at};
ghost use Rattle.field.specs.Tables.{Antilogs, Halves, Logs};

use crate::antilogs::{ANTILOG4, ANTILOG8, ANTILOG11};
use crate::halves::{HALF4, HALF8, HALF11};
use crate::logtables::{LOG4, LOG8, LOG11};
use field::rows::{ROW4, ROW8, ROW11};
use field::tables::Tables;

// The number of elements of each field.
pub const SIZE4: usize = ROW4.size as usize;

pub const SIZE8: usize = ROW8.size as usize;

pub const SIZE11: usize = ROW11.size as usize;

// The log table of the known field of degree m.
pub fn logs_of(m: u16) -> &'static [u16]
    requires { known m ≡ true }
    ensures { Logs (field_at m) result.now }
{
    match m {
        4 => &LOG4,
        8 => &LOG8,
        _ => &LOG11,
    }
}

// The antilog table of the known field of degree m.
pub fn antilogs_of(m: u16) -> &'static [u16]
    requires { known m ≡ true }
    ensures { Antilogs (field_at m) result.now }
{
    match m {
        4 => &ANTILOG4,
        8 => &ANTILOG8,
        _ => &ANTILOG11,
    }
}

// The quadratic table of the known field of degree m.
pub fn halves_of(m: u16) -> &'static [u16]
    requires { known m ≡ true }
    ensures { Halves (field_at m) result.now }
{
    match m {
        4 => &HALF4,
        8 => &HALF8,
        _ => &HALF11,
    }
}

// The log and antilog tables of the known field of degree m.
pub fn tables_of(m: u16) -> Tables<'static>
    requires { known m ≡ true }
    ensures { result.degree ≡ m }
{
    Tables {
        degree: m,
        logs: logs_of(m),
        antilogs: antilogs_of(m),
    }
}
