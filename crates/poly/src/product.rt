// The product of z + r over a list of roots, on a lent slice of coefficients, constant first, and over a field's
// tables. The product grows from the last root to the first, and downward in the slice: times z it stands
// where it stood, one place lower, and r times itself is added.
ghost use Rattle.std.specs.Prelude.{◌≡◌, drop};
ghost use Rattle.algebra.specs.Polynomial.{from_roots, linear, mul};
ghost use Rattle.field.specs.Field.{G};
ghost use Rattle.slices.specs.Lists.{copied};
ghost use Rattle.poly.specs.Asking.{Multipliable, Stretchable};

use field::tables::Tables;

// Multiplies the polynomial that stands in f from place 1 on by z + r. The product takes all of f; what stood at place
// 0 is not read.
fn times_linear(tables: &Tables, r: u16, f: &mut [u16])
    requires { Stretchable tables.now.degree r f.old }
    ensures { let m = tables.now.degree in f.new ≡ mul (G m) (linear (G m) r) (drop 1 f.old) }
{
    f[0] = 0;
    if r == 0 {
        return;
    }
    let logs = tables.logs;
    let antilogs = tables.antilogs;
    let s = logs[r as usize] as usize;
    let top = f.len() - 1;
    for i in 0..top {
        f[i] ^= antilogs[s + logs[f[i + 1] as usize] as usize];
    }
}

// Writes the product of z + r over the roots to the front of f: one coefficient more than there are roots, the last is
// 1. What stands behind is not written.
pub fn product_over(tables: &Tables, roots: &[u16], f: &mut [u16])
    requires { Multipliable tables.now.degree roots.now f.old }
    ensures { f.new ≡ copied (from_roots (G tables.now.degree) roots.now) f.old }
{
    let n = roots.len();
    f[n] = 1;
    for i in (0..n).rev() {
        times_linear(tables, roots[i], &mut f[i..=n]);
    }
}
