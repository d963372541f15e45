// The position of a root where only field 11 is asked for and the root is known not to be 0: by the log in place, so
// that no table is built.
ghost use Rattle.std.specs.Prelude.{◌≡◌, ◌<◌};
ghost use Rattle.field.specs.Field.{field_at};
ghost use Rattle.field_elements.specs.Calls.{position_under};

use field::rows::ROW11;
use field_constants::tables::log11;

// How many positions there are.
const ORDER: u16 = ROW11.size - 1;

// The position of a root of field 11 under the recorders' convention.
pub fn recorder_place11(r: u16) -> u16
    requires { (0 < r) × (r < 2048) }
    ensures { result ≡ position_under 1 (field_at 11) r }
{
    (ORDER - log11(r) / 2) % ORDER
}
