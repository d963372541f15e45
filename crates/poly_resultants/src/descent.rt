// Down one map: from the roots y of the resultant to the roots x of f above them. Where B(y) is not 0 there is one,
// A(y) / B(y); else A(y) is 0 too, and both x with x^2 + b x = y are roots, where there are any.
ghost use Rattle.std.specs.Prelude.{◌≡◌, [], ◌∷◌, get_or};
ghost use Rattle.poly_resultants.specs.Pairs.{Evaluable, Evaluates, ValuesAt};
ghost use Rattle.poly_resultants.specs.Levels.{Solves, Lifts, Written, Boths, Aboves, Descends, Descended};

use crate::elements::quotient;
use field::tables::Tables;
use field_tables::constants::halves_of;
use poly::values::evaluate;

// The mark of a table of halves where there is no half.
// kept: the table is constant memory of one number a place (HalfRoot in specs/Tables.antt of field says 65535).
const NONE: u16 = 65535;

// Writes the two x with x^2 + b x = y behind the first n elements of out, if there are any. Returns how many there are
// then. With x = b h it is h^2 + h = y / b^2.
fn both(tables: &Tables, b: u16, y: u16, out: &mut [u16], n: usize) -> usize
    requires { Boths tables.now.degree b y out.old n }
    ensures { Written (Solves tables.now.degree b y) n out.old result out.new }
{
    let v = tables.inverse(b);
    let c = tables.product(v, v);
    let i = tables.product(c, y);
    let h = halves_of(tables.degree)[i as usize];
    if h == NONE {
        return n;
    }
    let x = tables.product(b, h);
    out[n] = x;
    out[n + 1] = x ^ b;
    n + 2
}

// The element of p at k; 0 behind its end.
fn last_of(p: &[u16], k: usize) -> u16
    ensures { result ≡ get_or p.now k 0 }
{
    p.get(k).copied().unwrap_or(0)
}

// The values of p and q at y, which is not 0: two chains of Horner's rule side by side.
fn values_at(tables: &Tables, p: &[u16], q: &[u16], y: u16) -> (u16, u16)
    requires { Evaluates tables.now.degree p.now q.now y }
    ensures { ValuesAt tables.now.degree p.now q.now y result }
{
    let mut low = last_of(p, q.len());
    let mut high = 0;
    for k in (0..q.len()).rev() {
        low = p[k] ^ tables.product(y, low);
        high = q[k] ^ tables.product(y, high);
    }
    (low, high)
}

// The values of p and q at y: those of A and B.
fn values_of(tables: &Tables, p: &[u16], q: &[u16], y: u16) -> (u16, u16)
    requires { Evaluable tables.now.degree p.now q.now y }
    ensures { ValuesAt tables.now.degree p.now q.now y result }
{
    if y == 0 {
        let low = evaluate(tables, p, y);
        let high = evaluate(tables, q, y);
        return (low, high);
    }
    values_at(tables, p, q, y)
}

// Writes the roots above y behind the first n elements of out. Returns how many there are then.
fn above(tables: &Tables, b: u16, p: &[u16], q: &[u16], y: u16, out: &mut [u16], n: usize) -> usize
    requires { Aboves tables.now.degree b p.now q.now y out.old n }
    ensures { Written (Lifts tables.now.degree b p.now q.now (y ∷ []))
        n out.old result out.new }
{
    let (v, w) = values_of(tables, p, q, y);
    if w == 0 {
        return both(tables, b, y, out, n);
    }
    out[n] = quotient(tables, w, v);
    n + 1
}

// Writes the roots above those of ys to the front of out. Returns how many there are.
pub fn descend(tables: &Tables, b: u16, p: &[u16], q: &[u16], ys: &[u16], out: &mut [u16]) -> usize
    requires { Descends tables.now.degree b p.now q.now ys.now out.old }
    ensures { Descended tables.now.degree b p.now q.now ys.now result out.new }
{
    let mut n = 0;
    for y in ys {
        n = above(tables, b, p, q, *y, out, n);
    }
    n
}
