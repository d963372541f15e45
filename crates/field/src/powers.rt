// Powers by repeated squaring, the one way. A turn, x to (c x)^2, is additive, so it is a sum over the digits of x of
// a row that is made once: what it makes of 1, 2, 4, ..
ghost use Rattle.std.specs.Prelude.{◌≡◌, ◌-◌, ◌<◌, ◌^◌};
ghost use Rattle.field.specs.Rows.{ListedRow};
ghost use Rattle.field.specs.Field.{field_of};
ghost use Rattle.field.specs.Powers.{raised_by, linear_map, Squares};

use crate::rows::Row;

// No field has more digits. Twelve, not eleven: the compiler sums four at a time.
const DIGITS: usize = 12;

// The sum of the row's entries at the digits of x that are 1.
fn mapped(row: &[u16; DIGITS], x: u16) -> u16
    ensures { result ≡ linear_map row.now x }
{
    let mut sum = 0;
    let mut rest = x;
    for entry in row {
        if rest % 2 == 1 {
            sum ^= *entry;
        }
        rest /= 2;
    }
    sum
}

impl Row {
    // The row of a turn: (c 2^i)^2 at i, each 4 times the one before.
    fn squares(self, c: u16) -> [u16; DIGITS]
        requires { ListedRow self.degree self.poly × (c < 2 ^ self.degree) }
        ensures { Squares (field_of self.degree self.poly) c result }
    {
        let mut row = [0u16; DIGITS];
        let mut y = self.product(c, c) as u32;
        for i in 0..self.degree {
            row[i as usize] = y as u16;
            let z = self.cut(y * 2);
            y = self.cut(z * 2);
        }
        row
    }

    // All turns but one that bring x back: the square root of x, divided by c. A call would pass the row in memory.
    #[inline(always)]
    pub fn raised(self, c: u16, x: u16) -> u16
        requires { ListedRow self.degree self.poly × (c < 2 ^ self.degree) × (x < 2 ^ self.degree) }
        ensures { result ≡ raised_by (field_of self.degree self.poly) c (self.degree - 1) x }
    {
        let row = self.squares(c);
        let mut y = x;
        for _turn in 1..self.degree {
            y = mapped(&row, y);
        }
        y
    }
}
