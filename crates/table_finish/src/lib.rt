// Finish (docs/RULES.md section 4.4): the roots of each factor of a done table, merged into the front of the list,
// ascending and once each.
#![tactic(auto)]

ghost use Rattle.refusals.specs.Admitting.{Admits};
ghost use Rattle.table_finish.specs.Calls.{finish_tests, Finishes};
ghost use Rattle.table_finish.specs.Finishing.{Mergeable, RootsIn, Listable, ListedIn};

use field::tables::Tables;
use field_tables::constants::{halves_of, tables_of};
use input::LIMIT;
use poly_small::small_roots;
use refusals::Refusal;
use table_slots::check::check;
use table_slots::{FIRST, first_above, head_of, low_at, next_at};

// Refusals 7, 8 and 10, or none of them.
fn admit(table: &[u16], roots: &[u16]) -> Result<(), Refusal>
    ensures { Admits (finish_tests table.now roots.now) result }
{
    if roots.len() < LIMIT {
        return Err(Refusal::Room);
    }
    check(table)?;
    let h = head_of(table);
    match first_above(table, h.cutoff) {
        Some(_) => Err(Refusal::NotDone),
        None => Ok(()),
    }
}

// Merges the roots of the factor p into the n roots at the front of the list. Returns how many there are then.
fn merge_roots(tables: &Tables, halves: &[u16], p: &[u16], roots: &mut [u16], n: usize) -> usize
    requires { Mergeable tables.now.degree halves.now p.now roots.old n }
    ensures { RootsIn tables.now.degree p.now n roots.old result roots.new }
{
    let mut out = [0u16; 3];
    let k = small_roots(tables, halves, p, &mut out);
    slices::merge(roots, n, &out[..k])
}

// Lists every element at which some factor is zero, with the field's tables lent. Returns how many there are.
pub fn finish_lent(tables: &Tables, halves: &[u16], table: &[u16], roots: &mut [u16]) -> usize
    requires { Listable tables.now.degree halves.now table.now roots.old }
    ensures { ListedIn table.now roots.old result roots.new }
{
    let h = head_of(table);
    let mut at = FIRST;
    let mut k = 0;
    for _ in 0..h.factors {
        let p = low_at(table, at);
        k = merge_roots(tables, halves, p, roots, k);
        at = next_at(table, at);
    }
    k
}

// Lists, ascending and once each, every field element at which some factor of a done table is zero, at the front of
// the list. Returns how many there are.
pub fn finish(table: &[u16], roots: &mut [u16]) -> Result<u16, Refusal>
    ensures { Finishes table.now roots.old result roots.new }
{
    admit(table, roots)?;
    let m = head_of(table).m;
    let k = finish_lent(&tables_of(m), halves_of(m), table, roots);
    Ok(k as u16)
}
