// The log, the antilog and the half-root of an element, each a load out of a table in read-only memory.
ghost use Rattle.std.specs.Prelude.{◌≡◌, ◌<◌};
ghost use Rattle.field.specs.Field.{field_at};
ghost use Rattle.field.specs.Tables.{HalfRoot, log_of, antilog_of};
ghost use Rattle.field_constants.specs.Entries.{folded};

use field::rows::ROW11;
use field_tables::constants::{antilogs_of, halves_of, logs_of};

// The log of x: twice its position, or 1 where x is 0.
pub fn log11(x: u16) -> u16
    requires { x < 2048 }
    ensures { result ≡ log_of (field_at 11) x }
{
    logs_of(ROW11.degree)[x as usize]
}

// The antilog of a sum j of two logs: a^(j/2) where j is even, and 0 where it is odd.
pub fn antilog11(j: u16) -> u16
    requires { j < 8188 }
    ensures { result ≡ antilog_of (field_at 11) j }
{
    antilogs_of(ROW11.degree)[j as usize]
}

// The even number whose square and itself sum to i, or 65535 where there is none.
pub fn half11(i: u16) -> u16
    requires { i < 2048 }
    ensures { HalfRoot (field_at 11) i result }
{
    halves_of(ROW11.degree)[i as usize]
}

// The digits of y from 11 on, folded back: x^11 = x^2 + 1.
pub fn folded(y: u32) -> u16
    requires { y < 16777216 }
    ensures { result ≡ folded y }
{
    let h = y / 2048;
    ((y % 2048) ^ h ^ (h * 4)) as u16
}
