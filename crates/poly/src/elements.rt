// Elements over a field's tables.
ghost use Rattle.std.specs.Prelude.{◌≡◌, ◌<◌, ◌^◌};
ghost use Rattle.field.specs.Field.{mul, field_at};

use field::tables::Tables;

// The square of x.
pub fn square_by_logs(tables: &Tables, x: u16) -> u16
    requires { x < 2 ^ tables.now.degree }
    ensures { result ≡ mul (field_at tables.now.degree) x x }
{
    if x == 0 {
        return 0;
    }
    let k = tables.logs[x as usize] as usize;
    tables.antilogs[k + k]
}
