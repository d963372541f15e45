// Checking a partner's list of roots (docs/RULES.md section 14). A claim about a polynomial f has roots, beside each its multiplicity e, a
// cofactor h, and two polynomials u and v. It is accepted exactly if the roots are strictly ascending, each e is at
// least 1, the product of (z + r)^e and h is f, and u h + v w = 1, where w is the remainder of z^(2^m) + z by h. The
// last equation shows that h has no root: at a root of h both sides would be 0. So an accepted list is complete, and
// nothing is searched: the check multiplies, and squares z m times modulo h. Degrees are compared first, so that the
// work is bounded by the limit, however long the lists are and whatever the multiplicities say.
#![tactic(auto)]

ghost use Rattle.std.specs.Prelude.{◌≡◌, [], ◌∷◌, ◌≤◌, suc, ◌^◌, eqb, ltb, length};
ghost use Rattle.refusals.specs.Admitting.{Admits};
ghost use Rattle.slices.specs.Bounded.{any_from};
ghost use Rattle.algebra.specs.Multiplicity.{total};
ghost use Rattle.algebra.specs.Polynomial.{add, coef, field_poly, from_roots, mul};
ghost use Rattle.algebra.specs.Routines.{rem};
ghost use Rattle.field.specs.Field.{G};
ghost use Rattle.poly.specs.Lent.{held};
ghost use Rattle.poly_powers.specs.Asking.{Startable};
ghost use Rattle.input.specs.Limit.{limit};
ghost use Rattle.claim_rules.specs.Claims.{Acceptable, claim_of, combined, spread_out};
ghost use Rattle.claim_rules.specs.Admitting.{ClaimIn, claim_tests, polynomials_of, some_of};
ghost use Rattle.claims.specs.Calls.{Checks, said};
ghost use Rattle.claims.specs.Checking.{Decides, tallies, Spreadable, Rowable, Productive, Expandable};
ghost use Rattle.claims.specs.Checking.{Residual, Residue, Combinable, Weighable, Weighs};

use field::rows::row_of;
use field::tables::Tables;
use field_tables::constants::tables_of;
use input::{COEFFICIENTS, LIMIT};
use poly::monic::{make_monic, top};
use poly::product::product_over;
use poly::rows::{add_row, log_row};
use poly_powers::z_power;
use refusals::Refusal;
use slices::{all_below, all_zero};

// The words of a product of two polynomials within the limit.
const PRODUCT: usize = 2 * COEFFICIENTS;

// What is sent beside f: the roots, beside each its multiplicity, the cofactor h, and u and v.
#[derive(Clone, Copy)]
pub struct Claim<'a> {
    pub roots: &'a [u16],
    pub mults: &'a [u16],
    pub h: &'a [u16],
    pub u: &'a [u16],
    pub v: &'a [u16],
}

// One of the polynomials has no coefficients.
fn some_empty(f: &[u16], claim: &Claim) -> bool
    ensures { result ≡ some_of (λ p. eqb (length p) 0) (polynomials_of f.now (said claim.now)) }
{
    [f, claim.h, claim.u, claim.v].iter().any(|p| p.is_empty())
}

// One of the polynomials has too many coefficients.
fn some_long(f: &[u16], claim: &Claim) -> bool
    ensures { result ≡ some_of (λ p. ltb (suc limit) (length p)) (polynomials_of f.now (said claim.now)) }
{
    [f, claim.h, claim.u, claim.v]
        .iter()
        .any(|p| COEFFICIENTS < p.len())
}

// One of the roots is the bound or above. There may be any number of them: none behind the first such is looked at.
fn some_root_large(bound: u16, roots: &[u16]) -> bool
    ensures { result ≡ any_from bound roots.now }
{
    !roots.iter().all(|r| *r < bound)
}

// One of the polynomials has a coefficient that is the bound or above.
fn some_polynomial_large(bound: u16, f: &[u16], claim: &Claim) -> bool
    ensures { result ≡ some_of (any_from bound) (polynomials_of f.now (said claim.now)) }
{
    [f, claim.h, claim.u, claim.v]
        .iter()
        .any(|p| !all_below(p, bound))
}

// One of the roots or coefficients is the bound or above.
fn some_large(bound: u16, f: &[u16], claim: &Claim) -> bool
    ensures { result ≡ some_of (any_from bound) (claim.now.roots.now ∷ polynomials_of f.now (said claim.now)) }
{
    some_root_large(bound, claim.roots) || some_polynomial_large(bound, f, claim)
}

// Refusals 1 to 5. The multiplicities are not looked at.
fn admit(m: u16, f: &[u16], claim: &Claim) -> Result<(), Refusal>
    ensures { Admits (claim_tests m f.now (said claim.now)) result }
{
    let row = row_of(m).ok_or(Refusal::Field)?;
    if some_empty(f, claim) {
        return Err(Refusal::Empty);
    }
    if some_long(f, claim) {
        return Err(Refusal::Long);
    }
    if some_large(row.size, f, claim) {
        return Err(Refusal::Element);
    }
    if all_zero(f) {
        return Err(Refusal::AllZero);
    }
    Ok(())
}

// The roots ascend, there is a number of at least 1 beside each, and the numbers add up to n. Each number takes
// something of n, so that no more than n + 1 are looked at.
fn tally(roots: &[u16], mults: &[u16], n: usize) -> bool
    ensures { result ≡ tallies 0 n roots.now mults.now }
{
    if roots.len() != mults.len() {
        return false;
    }
    let mut least = 0;
    let mut left = n;
    for i in 0..roots.len() {
        let r = roots[i] as usize;
        let e = mults[i] as usize;
        if r < least {
            return false;
        }
        if e == 0 || left < e {
            return false;
        }
        least = r + 1;
        left -= e;
    }
    left == 0
}

// Writes each root as many times as the number beside it says, which fills the list.
pub fn spread_into(roots: &[u16], mults: &[u16], list: &mut [u16])
    requires { Spreadable roots.now mults.now list.old }
    ensures { list.new ≡ spread_out roots.now mults.now }
{
    let mut at = 0;
    for i in 0..roots.len() {
        let end = at + mults[i] as usize;
        list[at..end].fill(roots[i]);
        at = end;
    }
}

// Adds the product of p and the polynomial that the row holds to the front of sum.
fn add_rows(tables: &Tables, p: &[u16], row: &[u16], sum: &mut [u16])
    requires { Rowable tables.now.degree p.now row.now sum.old }
    ensures { let m = tables.now.degree in sum.new ≡ add (G m) sum.old (mul (G m) p.now (held m row.now)) }
{
    // a copy, which no turn reads from memory again
    let tables = *tables;
    for k in (0..p.len()).rev() {
        add_row(&tables, p[k], row, &mut sum[k..]);
    }
}

// Adds the product of p and q to the front of sum.
pub fn add_product(tables: &Tables, p: &[u16], q: &[u16], sum: &mut [u16])
    requires { Productive tables.now.degree p.now q.now sum.old }
    ensures { let F = G tables.now.degree in sum.new ≡ add F sum.old (mul F p.now q.now) }
{
    let mut row = [0; COEFFICIENTS];
    let n = q.len();
    log_row(tables, q, &mut row[..n]);
    add_rows(tables, p, &row[..n], sum);
}

// The product of z + r over the list, and h, is f: added to f it leaves nothing.
fn expands(tables: &Tables, list: &[u16], h: &[u16], f: &[u16]) -> bool
    requires { Expandable tables.now.degree list.now h.now f.now }
    ensures { let F = G tables.now.degree in
        Decides result (coef F (mul F (from_roots F list.now) h.now) ≡ coef F f.now) }
{
    let mut p = [0; COEFFICIENTS];
    let mut sum = [0; PRODUCT];
    product_over(tables, list, &mut p);
    let n = list.len() + 1;
    slices::copy(f, &mut sum);
    add_product(tables, &p[..n], h, &mut sum);
    all_zero(&sum)
}

// Writes the remainder of z^(2^m) + z by the monic polynomial with the low coefficients p to w: m squarings, then z is
// added, which modulo z + c is c.
fn field_remainder(tables: &Tables, p: &[u16], w: &mut [u16])
    requires { Startable tables.now.degree p.now w.old }
    ensures { let m = tables.now.degree in w.new ≡ rem (G m) p.now (field_poly (G m) m) }
{
    z_power(tables, p, tables.degree, w);
    match p {
        [] => {}
        [c] => w[0] ^= *c,
        _ => w[1] ^= 1,
    }
}

// Writes the remainder of z^(2^m) + z by h, which is not 0, to the front of w, and the low coefficients of the monic
// multiple of h to the front of low. Returns how many coefficients each has.
pub fn remainder_by(tables: &Tables, h: &[u16], low: &mut [u16], w: &mut [u16]) -> usize
    requires { Residual tables.now.degree h.now low.old w.old }
    ensures { Residue tables.now.degree h.now result low.new w.new }
{
    let n = h.len();
    slices::copy(h, low);
    let d = make_monic(tables, &mut low[..n]) - 1;
    field_remainder(tables, &low[..d], &mut w[..d]);
    d
}

// u h + v w is 1: added to 1 it leaves nothing.
fn combines(tables: &Tables, h: &[u16], u: &[u16], v: &[u16]) -> bool
    requires { Combinable tables.now.degree h.now u.now v.now }
    ensures { let m = tables.now.degree in
        Decides result (coef (G m) (combined m (claim_of [] [] h.now u.now v.now)) ≡ coef (G m) (1 ∷ [])) }
{
    let mut low = [0; COEFFICIENTS];
    let mut w = [0; LIMIT];
    let mut sum = [0; PRODUCT];
    sum[0] = 1;
    let d = remainder_by(tables, h, &mut low, &mut w);
    add_product(tables, u, h, &mut sum);
    add_product(tables, v, &w[..d], &mut sum);
    all_zero(&sum)
}

// Both equations of a claim, whose roots are spread over a list: that of the product first.
fn weigh(m: u16, f: &[u16], list: &[u16], claim: &Claim) -> bool
    requires { Weighable m f.now list.now (said claim.now) }
    ensures { Decides result (Weighs m f.now list.now (said claim.now)) }
{
    let tables = tables_of(m);
    expands(&tables, list, claim.h, f) && combines(&tables, claim.h, claim.u, claim.v)
}

// A claim that was let in is acceptable. The degrees of the roots' part and of h add up to that of f, or it is not:
// so no more roots are read than f's degree. Zeros at the top of h are left out.
fn judge(m: u16, f: &[u16], claim: &Claim) -> bool
    requires { ClaimIn m f.now (said claim.now) }
    ensures { Decides result (Acceptable m f.now (said claim.now)) }
{
    let mut list = [0; LIMIT];
    let n = top(f);
    let d = top(claim.h);
    if d == 0 || n < d {
        return false;
    }
    let s = n - d;
    if !tally(claim.roots, claim.mults, s) {
        return false;
    }
    spread_into(claim.roots, claim.mults, &mut list[..s]);
    let cut = Claim {
        h: &claim.h[..d],
        ..*claim
    };
    weigh(m, f, &list[..s], &cut)
}

// Checks a claim about the polynomial f over the field of degree m. It is accepted, or not.
pub fn check(m: u16, f: &[u16], claim: &Claim) -> Result<bool, Refusal>
    ensures { Checks m f.now (said claim.now) result }
{
    admit(m, f, claim)?;
    Ok(judge(m, f, claim))
}
