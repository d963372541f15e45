// Quotients over a field's tables.
ghost use Rattle.std.specs.Prelude.{◌≡◌, ◌<◌, ◌^◌};
ghost use Rattle.field.specs.Field.{field_at, mul, inverse};

use field::tables::Tables;

// The quotient of y by x, which is not 0: one look-up, of the log of y less that of x.
pub fn quotient(tables: &Tables, x: u16, y: u16) -> u16
    requires { let m = tables.now.degree in (0 < x) × (x < 2 ^ m) × (y < 2 ^ m) }
    ensures { let m = tables.now.degree in result ≡ mul (field_at m) (inverse (field_at m) x) y }
{
    let logs = tables.logs;
    let k = 2 * (logs.len() - 1) - logs[x as usize] as usize;
    tables.antilogs[k + logs[y as usize] as usize]
}
