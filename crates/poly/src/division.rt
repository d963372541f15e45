// Division by a monic polynomial, in place: from the top each coefficient is the quotient's next digit, and a multiple
// of the row takes it back.
ghost use Rattle.std.specs.Prelude.{◌≡◌};
ghost use Rattle.algebra.specs.Routines.{rem};
ghost use Rattle.field.specs.Field.{G};
ghost use Rattle.poly.specs.Lent.{held};
ghost use Rattle.poly.specs.Asking.{Divisible, Reducible};
ghost use Rattle.poly.specs.Division.{divided};

use crate::rows::add_row;
use field::tables::Tables;

// Divides f by the polynomial that the row holds: the remainder takes the low places, as many as the row has, and the
// quotient the others.
pub fn divide(tables: &Tables, row: &[u16], f: &mut [u16])
    requires { Divisible tables.now.degree row.now f.old }
    ensures { let m = tables.now.degree in f.new ≡ divided m (held m row.now) f.old }
{
    // a copy, which no turn reads from memory again
    let tables = *tables;
    let n = row.len();
    for k in (0..f.len() - n).rev() {
        let t = f[k + n];
        add_row(&tables, t, row, &mut f[k..]);
    }
}

// Writes the remainder of f by the polynomial that the row holds to r. What stands in f is used up.
pub fn remainder(tables: &Tables, row: &[u16], f: &mut [u16], r: &mut [u16])
    requires { Reducible tables.now.degree row.now f.old r.old }
    ensures { let m = tables.now.degree in r.new ≡ rem (G m) (held m row.now) f.old }
{
    let n = f.len();
    if n < row.len() {
        slices::store(&mut r[..n], f);
        r[n..].fill(0);
        return;
    }
    divide(tables, row, f);
    slices::store(r, &f[..row.len()]);
}
