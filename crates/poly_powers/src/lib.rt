// Squares modulo a monic polynomial, and what is made of them: z^(2^k), and the sum Tr(bz), which needs the powers of
// z once for all b. The work is here, for degrees up to the house's limit.
#![tactic(auto)]

ghost use Rattle.std.specs.Prelude.{◌≡◌, ◌+◌, ◌*◌, ◌≤◌, ◌<◌, ◌^◌, [], ◌∷◌, length};
ghost use Rattle.algebra.specs.Polynomial.{add};
ghost use Rattle.algebra.specs.Routines.{rem, square, frobenius_mod, trace_mod};
ghost use Rattle.field.specs.Field.{mul, field_at, G};
ghost use Rattle.poly.specs.Lent.{held};
ghost use Rattle.input.specs.Limit.{limit};
ghost use Rattle.poly_powers.specs.Asking.{Spreadable, Squarable, Startable, Savable, Summable};
ghost use Rattle.poly_powers.specs.Powers.{Started, Saved, trace_sum};

use field::tables::Tables;
use input::{LIMIT, SQUARE};
use poly::division::{divide, remainder};
use poly::elements::square_by_logs;
use poly::rows::{add_row, log_row};

// Writes the square of w to s: each coefficient's square at twice its place, and 0 between.
fn square_into(tables: &Tables, w: &[u16], s: &mut [u16])
    requires { Spreadable tables.now.degree w.now s.old }
    ensures { s.new ≡ square (G tables.now.degree) w.now }
{
    // a copy, which no turn reads from memory again
    let tables = *tables;
    for (i, x) in w.iter().enumerate() {
        let k = 2 * i;
        s[k] = square_by_logs(&tables, *x);
        s[k + 1] = 0;
    }
}

// Squares w modulo the polynomial that the row holds. What stands in s is used up.
fn square_mod(tables: &Tables, row: &[u16], w: &mut [u16], s: &mut [u16])
    requires { Squarable tables.now.degree row.now w.old × (limit + limit ≤ length s.old) }
    ensures { let m = tables.now.degree in w.new ≡ rem (G m) (held m row.now) (square (G m) w.old) }
{
    let n = row.len();
    let d = n + n;
    square_into(tables, w, &mut s[..d]);
    divide(tables, row, &mut s[..d]);
    w.copy_from_slice(&s[..n]);
}

// Squares w k times, so that it becomes w^(2^k) modulo the polynomial that the row holds.
pub fn power_mod(tables: &Tables, row: &[u16], k: u16, w: &mut [u16])
    requires { Squarable tables.now.degree row.now w.old }
    ensures { let m = tables.now.degree in w.new ≡ frobenius_mod (G m) (held m row.now) k w.old }
{
    let mut s = [0u16; SQUARE];
    for _ in 0..k {
        square_mod(tables, row, w, &mut s);
    }
}

// Writes the row of the monic polynomial with the low coefficients p, and bz modulo it to w.
fn start(tables: &Tables, p: &[u16], b: u16, row: &mut [u16], w: &mut [u16])
    requires { let m = tables.now.degree in Startable m p.now w.old × (b < 2 ^ m) × (length p.now ≡ length row.old) }
    ensures { Started tables.now.degree p.now b row.new w.new }
{
    log_row(tables, p, row);
    let mut z: [u16; 2] = [0, b];
    remainder(tables, row, &mut z, w);
}

// Adds w to sum.
fn add_to(m: u16, w: &[u16], sum: &mut [u16])
    requires { length w.now ≡ length sum.old }
    ensures { sum.new ≡ add (G m) sum.old w.now }
{
    for (i, x) in w.iter().enumerate() {
        sum[i] ^= *x;
    }
}

// Writes the trace sum w + w^2 + w^4 + .. , m terms, modulo the polynomial that the row holds to t. What stands in w
// is used up.
fn trace_mod(tables: &Tables, row: &[u16], w: &mut [u16], t: &mut [u16])
    requires { Squarable tables.now.degree row.now w.old × (length t.old ≡ length row.now) }
    ensures { let m = tables.now.degree in t.new ≡ trace_mod (G m) (held m row.now) m w.old }
{
    let mut s = [0u16; SQUARE];
    t.copy_from_slice(w);
    for _ in 1..tables.degree {
        square_mod(tables, row, w, &mut s);
        add_to(tables.degree, w, t);
    }
}

// Squares w k times as `power_mod` does, and writes the row of each power before the last to rows, one behind the
// other.
fn power_rows(tables: &Tables, row: &[u16], k: u16, w: &mut [u16], rows: &mut [u16])
    requires { Savable tables.now.degree row.now k w.old rows.old }
    ensures { let m = tables.now.degree in Saved m (held m row.now) k w.old w.new rows.new }
{
    let mut s = [0u16; SQUARE];
    let n = row.len();
    for i in 0..k {
        let at = i as usize * n;
        log_row(tables, w, &mut rows[at..at + n]);
        square_mod(tables, row, w, &mut s);
    }
}

// Writes z^(2^k) modulo the monic polynomial with the low coefficients p to w.
pub fn z_power(tables: &Tables, p: &[u16], k: u16, w: &mut [u16])
    requires { Startable tables.now.degree p.now w.old }
    ensures { let m = tables.now.degree in w.new ≡ frobenius_mod (G m) p.now k (rem (G m) p.now (0 ∷ 1 ∷ [])) }
{
    let n = p.len();
    let mut row = [0u16; LIMIT];
    start(tables, p, 1, &mut row[..n], w);
    power_mod(tables, &row[..n], k, w);
}

// Writes Tr(bz) modulo the monic polynomial with the low coefficients p to t.
pub fn trace_of(tables: &Tables, p: &[u16], b: u16, t: &mut [u16])
    requires { let m = tables.now.degree in Startable m p.now t.old × (b < 2 ^ m) }
    ensures { let m = tables.now.degree in t.new ≡ trace_mod (G m) p.now m (rem (G m) p.now (0 ∷ b ∷ [])) }
{
    let n = p.len();
    let mut row = [0u16; LIMIT];
    let mut w = [0u16; LIMIT];
    start(tables, p, b, &mut row[..n], &mut w[..n]);
    trace_mod(tables, &row[..n], &mut w[..n], t);
}

// Writes z^(2^k) modulo the monic polynomial with the low coefficients p to w, and the rows of z, z^2, z^4, .. before
// it to rows.
pub fn z_powers(tables: &Tables, p: &[u16], k: u16, w: &mut [u16], rows: &mut [u16])
    requires { Startable tables.now.degree p.now w.old
        × (k * length p.now ≤ length rows.old) }
    ensures { let m = tables.now.degree in Saved m p.now k (rem (G m) p.now (0 ∷ 1 ∷ [])) w.new rows.new }
{
    let n = p.len();
    let mut row = [0u16; LIMIT];
    start(tables, p, 1, &mut row[..n], w);
    power_rows(tables, &row[..n], k, w, rows);
}

// Adds b w0 + b^2 w1 + b^4 w2 + .. , k terms, to t, where the rows, one behind the other, hold w0, w1, w2, ..
pub fn add_trace(tables: &Tables, rows: &[u16], k: u16, b: u16, t: &mut [u16])
    requires { Summable tables.now.degree rows.now k b t.old }
    ensures { let m = tables.now.degree in t.new ≡ add (G m) t.old (trace_sum m (length t.old) k b rows.now) }
{
    let n = t.len();
    let mut c = b;
    for i in 0..k {
        let at = i as usize * n;
        add_row(tables, c, &rows[at..at + n], t);
        c = square_by_logs(tables, c);
    }
}
