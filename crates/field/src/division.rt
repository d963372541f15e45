// The inverse, which the fields share.
ghost use Rattle.std.specs.Prelude.{◌≡◌, ◌<◌, ◌^◌};
ghost use Rattle.field.specs.Rows.{ListedRow};
ghost use Rattle.field.specs.Field.{inverse, field_of};

use crate::rows::Row;

impl Row {
    // The inverse of a nonzero element, a^(2^m - 2).
    pub fn inverse(self, a: u16) -> u16
        requires { ListedRow self.degree self.poly × (0 < a) × (a < 2 ^ self.degree) }
        ensures { result ≡ inverse (field_of self.degree self.poly) a }
    {
        self.raised(a, 1)
    }
}
