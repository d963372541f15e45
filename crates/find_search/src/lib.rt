// The plain search (docs/RULES.md section 3.5): the value of the polynomial at every element. In field 11 the values
// are found on bit planes by an additive transform (poly_values); in the small fields the polynomial is evaluated at
// four elements side by side, so that their chains of table loads overlap.
#![tactic(auto)]

ghost use Rattle.std.specs.Prelude.{◌≡◌, ◌+◌, ◌≤◌, ◌<◌, length};
ghost use Rattle.input.specs.Limit.{limit};
ghost use Rattle.input.specs.Polynomials.{PolynomialIn};
ghost use Rattle.find_search.specs.Calls.{Searches};
ghost use Rattle.find_search.specs.Searching.{SearchedOut, Tried, Noted, Wordable};

use field::tables::Tables;
use field_tables::constants::tables_of;
use find_multiplicities::multiplicities_in;
use input::{LIMIT, admit_room};
use poly::values::{evaluate, evaluate_four};
use poly_values::{PLANES, VECTORS};
use refusals::{Refusal, also};

// Puts the element x behind the k roots at the front of the list where its value v is 0. Returns how many there are
// then.
fn note(v: u16, x: u16, roots: &mut [u16], k: u16) -> u16
    requires { (v ≡ 0 → k < length roots.old) × (k < 65535) }
    ensures { Noted v x k roots.old result roots.new }
{
    if v == 0 {
        roots[k as usize] = x;
        return k + 1;
    }
    k
}

// Tries the first four elements.
fn try_first(tables: &Tables, f: &[u16], roots: &mut [u16]) -> u16
    requires { PolynomialIn tables.now.degree f.now × (limit ≤ length roots.old) }
    ensures { Tried tables.now.degree f.now roots.old 4 result roots.new }
{
    let mut k: u16 = 0;
    for x in 0..4 {
        let v = evaluate(tables, f, x);
        k = note(v, x, roots, k);
    }
    k
}

// Lists every element at which f is 0 at the front of the roots, ascending. Returns how many there are.
fn search_lent(tables: &Tables, f: &[u16], roots: &mut [u16]) -> u16
    requires { PolynomialIn tables.now.degree f.now × (limit ≤ length roots.old) }
    ensures { SearchedOut tables.now.degree f.now roots.old result roots.new }
{
    let size = tables.logs.len() as u16;
    let mut k = try_first(tables, f, roots);
    for block in 1..size / 4 {
        let x = block * 4;
        let v = evaluate_four(tables, f, x);
        k = note(v[0], x, roots, k);
        k = note(v[1], x + 1, roots, k);
        k = note(v[2], x + 2, roots, k);
        k = note(v[3], x + 3, roots, k);
    }
    k
}

// Puts the elements x + l, for the set digits l of free, behind the k roots at the front of the list. Returns how many
// there are then.
fn note_word(f: &[u16], free: u64, x: u16, roots: &mut [u16], k: u16) -> u16
    requires { Wordable f.now free x k roots.old }
    ensures { Tried 11 f.now roots.old (x + 64) result roots.new }
{
    let mut rest = free;
    let mut at = x;
    let mut n = k;
    while rest != 0 {
        let t = u64::trailing_zeros(rest);
        at = at + t as u16;
        roots[n as usize] = at;
        n += 1;
        at += 1;
        rest = (rest >> t) / 2;
    }
    n
}

// The roots in field 11, by the values at every element on bit planes: 64 elements a word.
fn search11(f: &[u16], roots: &mut [u16]) -> u16
    requires { PolynomialIn 11 f.now × (limit ≤ length roots.old) }
    ensures { SearchedOut 11 f.now roots.old result roots.new }
{
    // any number fills the room: zeros would be a call of memset, which is slower
    let mut p = [1u64; PLANES];
    poly_values::values11(f, &mut p);
    let mut k: u16 = 0;
    for w in 0..VECTORS {
        let z = poly_values::occupied11(&p, w);
        k = note_word(f, z ^ u64::MAX, (w * 64) as u16, roots, k);
    }
    k
}

// The roots of an accepted polynomial: in the small fields element by element, over the field's tables; in field 11 by
// words.
fn search_in(m: u16, f: &[u16], roots: &mut [u16]) -> u16
    requires { PolynomialIn m f.now × (limit ≤ length roots.old) }
    ensures { SearchedOut m f.now roots.old result roots.new }
{
    if m == 11 {
        return search11(f, roots);
    }
    search_lent(&tables_of(m), f, roots)
}

// The plain search: every element is tried, the distinct roots stand ascending at the front of the first list, their
// multiplicities at the front of the second, and their number is returned.
pub fn search(m: u16, coeffs: &[u16], roots: &mut [u16], mults: &mut [u16]) -> Result<u16, Refusal>
    ensures { Searches m coeffs.now roots.old mults.old
        result roots.new mults.new }
{
    let found = admit_room(m, coeffs, roots.len() < LIMIT);
    also(found, mults.len() < LIMIT, Refusal::Room)?;
    let k = search_in(m, coeffs, roots);
    multiplicities_in(m, coeffs, &roots[..k as usize], mults);
    Ok(k)
}
