// What the fields share: the reduction, the product, the square root, the position.
ghost use Rattle.std.specs.Prelude.{◌≡◌, ◌<◌, ◌/◌, ◌^◌};
ghost use Rattle.field.specs.Rows.{ListedRow};
ghost use Rattle.field.specs.Field.{cut, mul, position, field_of};
ghost use Rattle.field.specs.Tables.{Logs};

use crate::rows::Row;

impl Row {
    // The reduction: y, with the polynomial added where y has the polynomial's degree.
    pub fn cut(self, y: u32) -> u32
        requires { self.degree < 16 }
        ensures { result ≡ cut (field_of self.degree self.poly) y }
    {
        ((y >> self.degree) % 2 * (self.poly as u32)) ^ y
    }

    // The product: each digit of a, lowest first, adds b times the digit's power of two.
    pub fn product(self, a: u16, b: u16) -> u16
        requires { (self.degree < 16)
            × (self.poly / 2 ^ self.degree ≡ 1)
            × (b < 2 ^ self.degree) }
        ensures { result ≡ mul (field_of self.degree self.poly) a b }
    {
        let mut x = a as u32;
        let mut y = b as u32;
        let mut sum = 0;
        while x != 0 {
            sum = (x % 2 * y) ^ sum;
            y = self.cut(y * 2);
            x /= 2;
        }
        sum as u16
    }

    // The square root, b^(2^(m-1)).
    pub fn root(self, b: u16) -> u16
        requires { ListedRow self.degree self.poly × (b < 2 ^ self.degree) }
        ensures { (result < 2 ^ self.degree)
            × (mul (field_of self.degree self.poly) result result ≡ b) }
    {
        self.raised(1, b)
    }

    // The position of a nonzero element, over a lent log table: half its log.
    pub fn position(self, logs: &[u16], r: u16) -> u16
        requires { Logs (field_of self.degree self.poly) logs.now
            × (0 < r)
            × (r < 2 ^ self.degree) }
        ensures { result ≡ position (field_of self.degree self.poly) r }
    {
        logs[r as usize] / 2
    }
}
