// The quadratic solver over a lent table of half-solutions.
ghost use Rattle.std.specs.Prelude.{◌<◌, ◌^◌};
ghost use Rattle.field.specs.Rows.{ListedRow};
ghost use Rattle.field.specs.Field.{field_of};
ghost use Rattle.field.specs.Tables.{Halves};
ghost use Rattle.field.specs.Quadratics.{SolvesQuadratic};

use crate::rows::Row;

// The roots of a quadratic: none, one that is double, or two, the lower first.
#[derive(Clone, Copy, Debug, PartialEq, Eq)]
pub enum Quadratic {
    NoRoot,
    Double(u16),
    Two(u16, u16),
}

impl Row {
    // The roots of z^2 + az + b: where a is 0 the square root of b, double, else z = ax with x^2 + x = b / a^2. With q
    // the square root of b, divided by a, that is q^2, so x is j + q where j^2 + j = q.
    pub fn quadratic(self, halves: &[u16], a: u16, b: u16) -> Quadratic
        requires { ListedRow self.degree self.poly
            × Halves (field_of self.degree self.poly) halves.now
            × (a < 2 ^ self.degree)
            × (b < 2 ^ self.degree) }
        ensures { SolvesQuadratic (field_of self.degree self.poly) a b result }
    {
        if a == 0 {
            return Quadratic::Double(self.root(b));
        }
        let q = self.raised(a, b);
        let j = halves[q as usize];
        if j == 65535 {
            return Quadratic::NoRoot;
        }
        let x = self.product(a, j ^ q);
        let y = x ^ a;
        if x < y {
            return Quadratic::Two(x, y);
        }
        Quadratic::Two(y, x)
    }
}
