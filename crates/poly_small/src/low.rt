// Degrees 0 to 2: no root, the coefficient itself, and the quadratic solver over a lent half-table.
ghost use Rattle.std.specs.Prelude.{[], ◌∷◌};
ghost use Rattle.algebra.specs.Routines.{monic};
ghost use Rattle.field.specs.Field.{G, roots_at};
ghost use Rattle.poly_small.specs.Roots.{Halvable, Lowly, Front};

use field::rows::known_row;
use field::solver::Quadratic;

// Writes the roots of z^2 + az + b to the front of out. Returns how many there are.
fn quadratic_roots(m: u16, halves: &[u16], a: u16, b: u16, out: &mut [u16]) -> usize
    requires { Halvable m halves.now a b out.old }
    ensures { Front (roots_at m (b ∷ a ∷ 1 ∷ [])) result out.new }
{
    match known_row(m).quadratic(halves, a, b) {
        Quadratic::NoRoot => 0,
        Quadratic::Double(x) => {
            out[0] = x;
            1
        }
        Quadratic::Two(x, y) => {
            out[0] = x;
            out[1] = y;
            2
        }
    }
}

// Writes the roots of the monic polynomial with the low coefficients p, at most 2 of them, to the front of out.
// Returns how many there are.
pub fn low_roots(m: u16, halves: &[u16], p: &[u16], out: &mut [u16]) -> usize
    requires { Lowly m halves.now p.now out.old }
    ensures { Front (roots_at m (monic (G m) p.now)) result out.new }
{
    match p {
        [] => 0,
        [x] => {
            out[0] = *x;
            1
        }
        [b, a, ..] => quadratic_roots(m, halves, *a, *b, out),
    }
}
