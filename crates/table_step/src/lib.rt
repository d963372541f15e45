// A step (docs/RULES.md section 4.3): the first factor P above the cutoff, at its level i, gives way to the monic
// greatest common divisor g of P and Tr(a^i z), and to h = P/g.
#![tactic(auto)]

ghost use Rattle.std.specs.Prelude.{◌≡◌, [], ◌∷◌, ◌≤◌, length};
ghost use Rattle.algebra.specs.Field.{power};
ghost use Rattle.algebra.specs.Routines.{rem, trace_mod};
ghost use Rattle.field.specs.Field.{G};
ghost use Rattle.table_rules.specs.Layout.{by_factor};
ghost use Rattle.table_rules.specs.Splitting.{slots_stepped};
ghost use Rattle.table_rules.specs.Sizes.{two_factors};
ghost use Rattle.table_step.specs.Calls.{Steps};
ghost use Rattle.table_slots.specs.Verdicts.{Chosen};
ghost use Rattle.table_step.specs.Parting.{Splittable, Partable, Parted, StepReady};

use field::tables::Tables;
use field_tables::constants::tables_of;
use input::{COEFFICIENTS, LIMIT};
use poly_gcd::{cofactor, gcd};
use poly_powers::trace_of;
use refusals::Refusal;
use table_slots::check::judge;
use table_slots::{TWO_FACTORS, append, head_of, level_at, low_at, replace};

// What a step answers: it was taken, or there is nothing to split.
#[derive(Clone, Copy, PartialEq, Eq)]
pub enum Stepped {
    Taken,
    Done,
}

// Writes Tr(a^i z) modulo the monic polynomial with the low coefficients p, i being its level, to t.
fn trace_at(tables: &Tables, p: &[u16], level: u16, t: &mut [u16])
    requires { Splittable tables.now.degree p.now level × (length t.old ≡ length p.now) }
    ensures { let m = tables.now.degree in
        t.new ≡ trace_mod (G m) p.now m (rem (G m) p.now (0 ∷ power (G m) 2 level ∷ [])) }
{
    let b = tables.antilogs[2 * (level as usize)];
    trace_of(tables, p, b, t);
}

// Writes the slots of the factor's two parts, at the next level, to the front of w: its monic greatest common divisor
// with t, which stands for Tr(a^i z), and the rest. A constant part is omitted. Returns the number of slots.
fn parts_of(tables: &Tables, p: &[u16], level: u16, t: &[u16], w: &mut [u16]) -> usize
    requires { Partable tables.now.degree p.now level t.now × (two_factors ≤ length w.old) }
    ensures { Parted tables.now.degree level p.now result w.new }
{
    let mut g = [0u16; COEFFICIENTS];
    let k = gcd(tables, p, t, &mut g);
    let mut h = [0u16; LIMIT];
    let e = p.len() - k;
    cofactor(tables, p, &g[..k], &mut h[..e]);
    let at = append(w, 0, level + 1, &g[..k]);
    append(w, at, level + 1, &h[..e])
}

// Replaces the factor at o by its parts, and counts the step, over the tables of its field and with a polynomial t
// that stands for Tr(a^i z).
pub fn step_lent(table: &mut [u16], tables: &Tables, o: usize, t: &[u16])
    requires { StepReady tables.now.degree table.old o t.now }
    ensures { table.new ≡ slots_stepped by_factor table.old }
{
    let level = level_at(table, o);
    let mut w = [0u16; TWO_FACTORS];
    let q = parts_of(tables, low_at(table, o), level, t, &mut w);
    replace(table, o, &w[..q]);
}

// Replaces the factor at o by its parts, and counts the step. Tr(a^i z) is taken modulo the factor.
fn step_in(table: &mut [u16], o: usize)
    requires { Chosen table.old o }
    ensures { table.new ≡ slots_stepped by_factor table.old }
{
    let h = head_of(table);
    let tables = tables_of(h.m);
    let level = level_at(table, o);
    let p = low_at(table, o);
    let d = p.len();
    let mut t = [0u16; LIMIT];
    trace_at(&tables, p, level, &mut t[..d]);
    step_lent(table, &tables, o, &t[..d]);
}

// One step: the first factor above the cutoff gives way to its parts.
pub fn step(table: &mut [u16]) -> Result<Stepped, Refusal>
    ensures { Steps table.old result table.new }
{
    let Some(o) = judge(table)? else {
        return Ok(Stepped::Done);
    };
    step_in(table, o);
    Ok(Stepped::Taken)
}
