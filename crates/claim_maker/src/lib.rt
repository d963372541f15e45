// Making a claim about a polynomial f (docs/RULES.md section 14.4), which `claims::check` accepts. The roots and their
// multiplicities are those of the whole call, by the same engine. The cofactor h is the quotient of f by the product
// of (z + r)^e. It has no root, so h and w, the remainder of z^(2^m) + z by h, have no common factor, and Euclid's
// algorithm gives u and v with u h + v w = 1. It goes by calls: each divides, and makes its own pair from that of the
// divisor and the remainder, so that one product a division gives both u and v. It gives the v of the lowest degree,
// below that of h. Where f splits, h is a constant, v is 0 and u the inverse of h, by the same way. The engine has
// squared z m - 1 times modulo f, and h divides f: w takes one squaring more, and a division.
#![tactic(auto)]

ghost use Rattle.std.specs.Prelude.{◌≡◌, map, ◌≤◌, ◌*◌, length, take};
ghost use Rattle.algebra.specs.Multiplicity.{total};
ghost use Rattle.algebra.specs.Routines.{quo};
ghost use Rattle.refusals.specs.Admitting.{Admits};
ghost use Rattle.field.specs.Field.{G};
ghost use Rattle.poly.specs.Asking.{Scalable};
ghost use Rattle.poly.specs.Lent.{held, log_row};
ghost use Rattle.input.specs.Cutoff.{house_default};
ghost use Rattle.input.specs.Limit.{limit, widest};
ghost use Rattle.input.specs.Polynomials.{polynomial_tests};
ghost use Rattle.claim_rules.specs.Claims.{claim_of};
ghost use Rattle.claims.specs.Checking.{Residue};
ghost use Rattle.find_solve.specs.Solving.{Solvable};
ghost use Rattle.claim_maker.specs.Calls.{Makes, Proves, buffer_sizes};
ghost use Rattle.claim_maker.specs.Making.{Rowable, RootsRow, Quotable, Splittable, SplitOff};
ghost use Rattle.claim_maker.specs.Making.{Reducible, Reduced, Unitable, United, Pairable, Paired};
ghost use Rattle.claim_maker.specs.Making.{Rooted, Powerable, IsPower, Residable, Makeable};

use claims::{add_product, spread_into};
use field::tables::Tables;
use field_tables::constants::{halves_of, tables_of};
use find_multiplicities::multiplicities_lent;
use find_solve::run_table;
use input::{COEFFICIENTS, HOUSE_DEFAULT, LIMIT, POWER_ROWS, admit_room};
use poly::division::{divide, remainder};
use poly::monic::{make_monic, scale, top};
use poly::product::product_over;
use poly::rows::{add_row, log_row};
use poly_powers::power_mod;
use refusals::{Refusal, also};
use table_begin::begin_lent;
use table_finish::finish_lent;
use table_slots::SLOTS;

// The words of a product of two polynomials within the limit.
const PRODUCT: usize = 2 * COEFFICIENTS;

// Lists the roots of f at the front of roots: a table is begun, stepped until it is done, and finished. The rows of z,
// z^2, z^4, .. modulo f are left at the front of rows. Returns how many roots there are.
fn find_roots(
    tables: &Tables,
    f: &[u16],
    halves: &[u16],
    rows: &mut [u16],
    roots: &mut [u16],
) -> u16
    requires { Solvable tables.now.degree house_default f.now halves.now roots.old
        × (widest * limit ≤ length rows.old) }
    ensures { Rooted tables.now.degree f.now roots.old result rows.new roots.new }
{
    let mut table = [0; SLOTS];
    let n = begin_lent(tables, HOUSE_DEFAULT, f, &mut table, rows);
    let e = (tables.degree as usize) * n;
    run_table(tables, HOUSE_DEFAULT, f, n, &rows[..e], &mut table);
    finish_lent(tables, halves, &table, roots) as u16
}

// Writes z^(2^m) + z, reduced by f, to b, where zeros stand: the last of the rows that begin left is squared, and z is
// added.
fn field_power(tables: &Tables, f: &[u16], rows: &[u16], b: &mut [u16])
    requires { Powerable tables.now.degree f.now rows.now b.old }
    ensures { IsPower tables.now.degree f.now b.new }
{
    let mut low = [0; COEFFICIENTS];
    let mut row = [0; LIMIT];
    let n = f.len();
    slices::copy(f, &mut low);
    let d = make_monic(tables, &mut low[..n]) - 1;
    log_row(tables, &low[..d], &mut row[..d]);
    let at = (tables.degree as usize - 1) * d;
    let e = at + d;
    add_row(tables, 1, &rows[at..e], &mut b[..d]);
    power_mod(tables, &row[..d], 1, &mut b[..d]);
    b[1] ^= 1;
}

// Writes the remainder of b by h, which is not 0, to the front of w, and the low coefficients of the monic multiple of
// h to the front of low. Returns how many coefficients each has. What stands in b is used up.
fn residue_by(tables: &Tables, h: &[u16], b: &mut [u16], low: &mut [u16], w: &mut [u16]) -> usize
    requires { Residable tables.now.degree h.now b.old low.old w.old }
    ensures { Residue tables.now.degree h.now result low.new w.new }
{
    let mut row = [0; LIMIT];
    let n = h.len();
    slices::copy(h, low);
    let d = make_monic(tables, &mut low[..n]) - 1;
    log_row(tables, &low[..d], &mut row[..d]);
    remainder(tables, &row[..d], b, &mut w[..d]);
    d
}

// The sum of the multiplicities.
fn sum_of(mults: &[u16]) -> usize
    requires { total mults.now ≤ limit }
    ensures { result ≡ total mults.now }
{
    let mut n = 0;
    for e in mults {
        n += *e as usize;
    }
    n
}

// Writes the row of the product of (z + r)^e, without its leading 1, to the front of row. Returns its degree.
fn roots_row(tables: &Tables, roots: &[u16], mults: &[u16], row: &mut [u16]) -> usize
    requires { Rowable tables.now.degree roots.now mults.now row.old }
    ensures { RootsRow tables.now.degree roots.now mults.now result row.new }
{
    let mut list = [0; LIMIT];
    let mut p = [0; COEFFICIENTS];
    let n = sum_of(mults);
    spread_into(roots, mults, &mut list[..n]);
    product_over(tables, &list[..n], &mut p);
    log_row(tables, &p[..n], &mut row[..n]);
    n
}

// Writes the first coefficients of the quotient of work by the polynomial that the row holds to q, as many as q has.
// What stands in work is used up.
fn quotient_into(tables: &Tables, row: &[u16], work: &mut [u16], q: &mut [u16])
    requires { Quotable tables.now.degree row.now work.old q.old }
    ensures { let m = tables.now.degree in q.new ≡ take (length q.old) (quo (G m) (held m row.now) work.old) }
{
    let n = row.len();
    let e = n + q.len();
    divide(tables, row, work);
    slices::copy(&work[n..e], q);
}

// Writes what is left of f, where z + r is taken out for every root r as often as it divides, to h.
fn split_off(tables: &Tables, f: &[u16], roots: &[u16], mults: &[u16], h: &mut [u16])
    requires { Splittable tables.now.degree f.now roots.now mults.now h.old }
    ensures { SplitOff tables.now.degree f.now h.new }
{
    let mut row = [0; LIMIT];
    let mut work = [0; PRODUCT];
    let n = roots_row(tables, roots, mults, &mut row);
    slices::copy(f, &mut work);
    quotient_into(tables, &row[..n], &mut work, h);
}

// Writes the row of p times c.
fn scaled_row(tables: &Tables, c: u16, p: &[u16], row: &mut [u16])
    requires { Scalable tables.now.degree c p.now × (length p.now ≡ length row.old) }
    ensures { let m = tables.now.degree in row.new ≡ log_row m (map ((G m).mul c) p.now) }
{
    let logs = tables.logs;
    let antilogs = tables.antilogs;
    let s = logs[c as usize] as usize;
    for i in 0..p.len() {
        let x = antilogs[s + logs[p[i] as usize] as usize] as usize;
        row[i] = logs[x];
    }
}

// Divides a by b, whose last coefficient is not 0: the remainder takes the low places of a, as many as the degree of b,
// and the quotient the others.
fn reduce(tables: &Tables, b: &[u16], a: &mut [u16])
    requires { Reducible tables.now.degree b.now a.old }
    ensures { Reduced tables.now.degree b.now a.old a.new }
{
    let mut row = [0; LIMIT];
    let n = b.len() - 1;
    let c = tables.inverse(b[n]);
    scaled_row(tables, c, &b[..n], &mut row[..n]);
    divide(tables, &row[..n], a);
    scale(tables, c, &mut a[n..]);
}

// Writes x and y with x a + y b = 1, of a and b that have no common factor, the last coefficient of b not 0. With the
// quotient q and the remainder r of a by b, x and y of b and r come first: then x a + (y + q x) b = 1. What stands in a
// and b is used up.
fn unite(tables: &Tables, a: &mut [u16], b: &mut [u16], x: &mut [u16], y: &mut [u16])
    requires { Unitable tables.now.degree a.old b.old x.old y.old }
    ensures { United tables.now.degree a.old b.old x.new y.new }
{
    let n = b.len() - 1;
    if n == 0 {
        slices::clear(x);
        slices::clear(y);
        y[0] = tables.inverse(b[0]);
        return;
    }
    reduce(tables, b, a);
    let j = top(&a[..n]);
    unite(tables, b, &mut a[..j], y, x);
    add_product(tables, &a[n..], &x[..n], y);
}

// Writes u and v with u h + v w = 1, where h has no root, and b is z^(2^m) + z modulo h. What stands in b is used up.
fn pair(tables: &Tables, h: &[u16], b: &mut [u16], u: &mut [u16], v: &mut [u16])
    requires { Pairable tables.now.degree h.now b.old u.old v.old }
    ensures { Paired tables.now.degree h.now u.new v.new }
{
    let mut p = [0; COEFFICIENTS];
    let mut w = [0; LIMIT];
    let d = residue_by(tables, h, b, &mut p, &mut w);
    let e = d + 1;
    slices::copy(h, &mut p);
    unite(tables, &mut w[..d], &mut p[..e], v, u);
}

// Makes the claim about an accepted polynomial. Returns the number of roots.
fn make(
    tables: &Tables,
    f: &[u16],
    roots: &mut [u16],
    mults: &mut [u16],
    h: &mut [u16],
    u: &mut [u16],
    v: &mut [u16],
) -> u16
    requires { Makeable tables.now.degree f.now (claim_of roots.old mults.old h.old u.old v.old) }
    ensures { Makes tables.now.degree f.now result
        (claim_of roots.old mults.old h.old u.old v.old)
        (claim_of roots.new mults.new h.new u.new v.new) }
{
    let halves = halves_of(tables.degree);
    let mut rows = [0; POWER_ROWS];
    let mut b = [0; COEFFICIENTS];
    let n = find_roots(tables, f, halves, &mut rows, roots);
    let e = n as usize;
    multiplicities_lent(tables, f, &roots[..e], mults);
    split_off(tables, f, &roots[..e], &mults[..e], &mut h[..COEFFICIENTS]);
    field_power(tables, f, &rows, &mut b);
    pair(
        tables,
        &h[..COEFFICIENTS],
        &mut b,
        &mut u[..COEFFICIENTS],
        &mut v[..COEFFICIENTS],
    );
    n
}

// Refusals 1 to 5, and 7 of each of the five buffers.
fn admit(
    m: u16,
    f: &[u16],
    roots: usize,
    mults: usize,
    h: usize,
    u: usize,
    v: usize,
) -> Result<(), Refusal>
    ensures { Admits (polynomial_tests m f.now (buffer_sizes roots mults h u v)) result }
{
    let first = also(
        admit_room(m, f, roots < LIMIT),
        mults < LIMIT,
        Refusal::Room,
    );
    let second = also(first, h < COEFFICIENTS, Refusal::Room);
    let third = also(second, u < COEFFICIENTS, Refusal::Room);
    also(third, v < COEFFICIENTS, Refusal::Room)
}

// Makes the claim about the polynomial f over the field of degree m that has all its roots: fills the roots, beside
// each its multiplicity, the cofactor h, and u and v. Returns the number of roots.
// kept: (d) as one struct the five `&mut` lists are lent twice, with an old and a new of the struct and of each list
pub fn prove(
    m: u16,
    f: &[u16],
    roots: &mut [u16],
    mults: &mut [u16],
    h: &mut [u16],
    u: &mut [u16],
    v: &mut [u16],
) -> Result<u16, Refusal>
    ensures { Proves m f.now
        (claim_of roots.old mults.old h.old u.old v.old) result
        (claim_of roots.new mults.new h.new u.new v.new) }
{
    admit(m, f, roots.len(), mults.len(), h.len(), u.len(), v.len())?;
    Ok(make(&tables_of(m), f, roots, mults, h, u, v))
}
