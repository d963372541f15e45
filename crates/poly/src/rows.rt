// Rows: a polynomial by the logs of its coefficients, so that a product is one table load.
ghost use Rattle.std.specs.Prelude.{◌≡◌, map};
ghost use Rattle.algebra.specs.Polynomial.{add};
ghost use Rattle.field.specs.Field.{G};
ghost use Rattle.poly.specs.Lent.{log_row, held};
ghost use Rattle.poly.specs.Asking.{Addable, Loggable};

use field::tables::Tables;

// The kernel: adds t times the polynomial that the row holds to the front of r.
pub fn add_row(tables: &Tables, t: u16, row: &[u16], r: &mut [u16])
    requires { Addable tables.now.degree t row.now r.old }
    ensures { let F = G tables.now.degree in r.new ≡ add F r.old (map (F.mul t) (held tables.now.degree row.now)) }
{
    if t == 0 {
        return;
    }
    let antilogs = tables.antilogs;
    let s = tables.logs[t as usize] as usize;
    for (i, log) in row.iter().enumerate() {
        r[i] ^= antilogs[s + *log as usize];
    }
}

// Writes the row of p.
pub fn log_row(tables: &Tables, p: &[u16], row: &mut [u16])
    requires { Loggable tables.now.degree p.now row.old }
    ensures { row.new ≡ log_row tables.now.degree p.now }
{
    let logs = tables.logs;
    for (i, x) in p.iter().enumerate() {
        row[i] = logs[*x as usize];
    }
}
