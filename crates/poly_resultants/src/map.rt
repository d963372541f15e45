// One map: a polynomial f becomes its digits A and B by powers of x^2 + b x, in place, and these its resultant.
ghost use Rattle.std.specs.Prelude.{◌≡◌, map, ◌^◌, length};
ghost use Rattle.algebra.specs.Polynomial.{add, mul, Below};
ghost use Rattle.field.specs.Field.{G};
ghost use Rattle.poly.specs.Lent.{held};
ghost use Rattle.poly_resultants.specs.Maps.{evens, combine, digits, resultant};
ghost use Rattle.poly_resultants.specs.Lending.{Factors, Products, Digits};

use field::tables::Tables;
use input::LIMIT;
use poly::elements::square_by_logs;
use poly::rows::{add_row, log_row};

// No polynomial has more digits at odd places.
const HIGH: usize = LIMIT / 2;

// Adds b times each element at an odd place to the one before it.
fn combine(tables: &Tables, b: u16, s: &mut [u16])
    requires { Factors tables.now.degree b s.old }
    ensures { s.new ≡ combine (G tables.now.degree) b s.old }
{
    for k in 0..s.len() / 2 {
        let i = 2 * k;
        s[i] ^= tables.product(b, s[i + 1]);
    }
}

// Makes of the coefficients of f its digits, from the top.
pub fn convert(tables: &Tables, b: u16, f: &mut [u16])
    requires { Factors tables.now.degree b f.old }
    ensures { f.new ≡ digits (G tables.now.degree) b f.old }
{
    for k in (0..f.len()).rev() {
        combine(tables, b, &mut f[k + 1..]);
    }
}

// Writes every other element of g, from the first on.
pub fn every_other(g: &[u16], out: &mut [u16])
    requires { length out.old ≡ length (evens g.now) }
    ensures { out.new ≡ evens g.now }
{
    for i in 0..out.len() {
        out[i] = g[2 * i];
    }
}

// Squares each element.
fn square_all(tables: &Tables, g: &mut [u16])
    requires { Below (2 ^ tables.now.degree) g.old }
    ensures { g.new ≡ map (λ c. (G tables.now.degree).mul c c) g.old }
{
    for c in g.iter_mut() {
        *c = square_by_logs(tables, *c);
    }
}

// Adds b p times the polynomial that the row holds to r.
fn add_product(tables: &Tables, b: u16, p: &[u16], row: &[u16], r: &mut [u16])
    requires { Products tables.now.degree b p.now row.now r.old }
    ensures { let m = tables.now.degree in r.new ≡ add (G m) r.old (mul (G m) (map ((G m).mul b) p.now) (held m row.now)) }
{
    for (i, c) in p.iter().enumerate() {
        let t = tables.product(b, *c);
        add_row(tables, t, row, &mut r[i..]);
    }
}

// Makes of the digits g, whose digits at even places are p and those at odd places q, the resultant.
pub fn resultant(tables: &Tables, b: u16, p: &[u16], q: &[u16], g: &mut [u16])
    requires { Digits tables.now.degree b p.now q.now g.old }
    ensures { g.new ≡ resultant (G tables.now.degree) b g.old }
{
    let mut row = [0; HIGH];
    let e = q.len();
    log_row(tables, q, &mut row[..e]);
    square_all(tables, g);
    add_product(tables, b, p, &row[..e], g);
}
