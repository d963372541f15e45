// The slots of the work table: this crate alone knows which slot holds what. The head has the field degree m, the
// cutoff in force, the number of factors and that of the steps taken; then each factor in turn has its level, its
// degree and its coefficients below the leading 1; all remaining slots are 0. A factor is named by the place of its
// first slot.
#![tactic(auto)]

ghost use Rattle.std.specs.Prelude.{◌≡◌, suc, ◌+◌, ◌-◌, ◌*◌, ◌/◌, ◌^◌, ◌≤◌, ◌<◌, length};
ghost use Rattle.input.specs.Limit.{limit};
ghost use Rattle.table_rules.specs.Layout.{factor_slots, by_factor};
ghost use Rattle.table_rules.specs.Table.{head_slots, slots_for, encode};
ghost use Rattle.table_rules.specs.Splitting.{begun_table};
ghost use Rattle.table_rules.specs.Sizes.{slots, is_table_size, limit_for, limit_by};
ghost use Rattle.slices.specs.Bounded.{all_below};
ghost use Rattle.table_slots.specs.Slots.{Heads, StandsWhole, level_at, factor_at, next_at};
ghost use Rattle.table_slots.specs.Slots.{Appended, Replaceable, replaced_at};
ghost use Rattle.table_slots.specs.Walk.{front_slots, tally, sought_in, summed};

use field::rows::row_of;
use input::{HIGHEST_CUTOFF, LIMIT};

pub mod check; // what is decided of a table before anything is written

// The slots of the head.
const WIDTH: usize = 0;

const CUTOFF: usize = 1;

const FACTORS: usize = 2;

const STEPS: usize = 3;

// The place of the first factor.
pub const FIRST: usize = 4;

// A factor's level is its first slot, and its degree the next; then its coefficients follow.
const DEGREE: usize = 1;

const LOW: usize = 2;

// The slots of a new table, in which each degree has room for a factor of its own.
pub const SLOTS: usize = FIRST + (LOW + 1) * LIMIT;

// The limit of a table that was stored before the limit rose, and its slots.
const STORED_LIMIT: usize = 32;

pub const STORED_SLOTS: usize = FIRST + (LOW + 1) * STORED_LIMIT;

// The slots of two factors: two heads, and as many coefficients as there can be.
pub const TWO_FACTORS: usize = 2 * LOW + LIMIT;

// Does some table have n slots?
pub fn is_table_size(n: usize) -> bool
    ensures { result ≡ is_table_size n }
{
    n == STORED_SLOTS || n == SLOTS
}

// The limit that a table of n slots is under.
fn limit_for(n: usize) -> usize
    ensures { result ≡ limit_for n }
{
    if n == STORED_SLOTS {
        STORED_LIMIT
    } else {
        LIMIT
    }
}

// What the head says.
#[derive(Clone, Copy)]
pub struct Head {
    pub m: u16,
    pub cutoff: u16,
    pub factors: u16,
    pub steps: u16,
}

// The head of a table.
pub fn head_of(table: &[u16]) -> Head
    requires { head_slots ≤ length table.now }
    ensures { Heads table.now result }
{
    Head {
        m: table[WIDTH],
        cutoff: table[CUTOFF],
        factors: table[FACTORS],
        steps: table[STEPS],
    }
}

// The level of the factor at o.
pub fn level_at(table: &[u16], o: usize) -> u16
    requires { o < length table.now }
    ensures { result ≡ level_at table.now o }
{
    table[o]
}

// The place behind the factor at o.
pub fn next_at(table: &[u16], o: usize) -> usize
    requires { StandsWhole table.now o }
    ensures { result ≡ next_at table.now o }
{
    o + LOW + table[o + DEGREE] as usize
}

// The coefficients of the factor at o, below the leading 1.
pub fn low_at(table: &[u16], o: usize) -> &[u16]
    requires { StandsWhole table.now o }
    ensures { result.now ≡ factor_at table.now o }
{
    let b = o + LOW;
    let e = b + table[o + DEGREE] as usize;
    &table[b..e]
}

// The place of the first factor whose degree is above c.
pub fn first_above(table: &[u16], c: u16) -> Option<usize>
    requires { head_slots ≤ length table.now }
    ensures { result ≡ sought_in c table.now }
{
    let mut at = FIRST;
    for _ in 0..table[FACTORS] {
        let d = *table.get(at + DEGREE)?;
        if c < d {
            return Some(at);
        }
        at += d as usize + LOW;
    }
    None
}

// Writes the slots of a factor to w at `at`, and nothing where it is constant. Returns the place behind them.
pub fn append(w: &mut [u16], at: usize, level: u16, low: &[u16]) -> usize
    requires { (at + (length low.now + factor_slots) ≤ length w.old) × (length low.now < 65536) }
    ensures { Appended at level low.now w.old result w.new }
{
    let n = low.len();
    if n == 0 {
        return at;
    }
    let b = at + LOW;
    slices::paste(w, b, low);
    w[at] = level;
    w[at + DEGREE] = n as u16;
    b + n
}

// Writes a whole table with one factor at level 0, or none where low is empty, whatever it held.
pub fn lay(table: &mut [u16], m: u16, c: u16, low: &[u16])
    requires { (length table.old ≡ slots) × (length low.now ≤ limit) }
    ensures { table.new ≡ encode by_factor slots (begun_table m c low.now) }
{
    slices::clear(table);
    table[WIDTH] = m;
    table[CUTOFF] = c;
    let n = low.len();
    if n == 0 {
        return;
    }
    table[FACTORS] = 1;
    append(table, FIRST, 0, low);
}

// Puts the slots of its parts in the place of the factor at o. The factors are counted again, and the step is counted.
pub fn replace(table: &mut [u16], o: usize, parts: &[u16])
    requires { Replaceable table.old o parts.now }
    ensures { table.new ≡ replaced_at o parts.now table.old }
{
    let others = table[FACTORS] - 1;
    let taken = table[STEPS] + 1;
    let d = table[o + DEGREE] as usize;
    let n = parts.len();
    slices::splice(table, o, d + LOW, parts);
    table[FACTORS] = others + ((n - d) / LOW) as u16;
    table[STEPS] = taken;
}

// So few numbers are looked at one by one.
const FEW: usize = 8;

// Every coefficient is below the size of the field. Most factors are short, and of few numbers a loop that takes many at
// a time costs more than it saves.
fn all_elements(s: &[u16], size: u16) -> bool
    ensures { result ≡ all_below size s.now }
{
    if s.len() < FEW {
        return s.iter().all(|x| *x < size);
    }
    slices::all_below(s, size)
}

// The slots that the factor at the front of s takes, where one stands there that fits.
fn front_slots(s: &[u16], m: u16, size: u16, room: usize) -> Option<usize>
    requires { (size ≡ 2 ^ m) × (room ≤ length s.now - factor_slots) }
    ensures { result ≡ front_slots m room s.now }
{
    let [level, degree, coefficients @ ..] = s else {
        return None;
    };
    let d = *degree as usize;
    if m < *level || d < 1 || room < d || !all_elements(&coefficients[..d], size) {
        return None;
    }
    Some(d + LOW)
}

// The sum of the degrees of `count` factors in s, if they fit and zeros follow.
fn walk(s: &[u16], m: u16, size: u16, count: u16, limit: usize) -> Option<usize>
    requires { (size ≡ 2 ^ m) × (suc factor_slots * limit ≤ length s.now) }
    ensures { result ≡ tally m limit count s.now }
{
    let mut sum = 0;
    let mut at = 0;
    for _ in 0..count {
        let n = front_slots(&s[at..], m, size, limit - sum)?;
        sum += n - LOW;
        at += n;
    }
    if slices::all_zero(&s[at..]) {
        Some(sum)
    } else {
        None
    }
}

// At most as many steps may have been taken.
pub fn step_limit(m: u16, c: u16, sum: usize) -> usize
    requires { sum ≤ limit }
    ensures { result ≡ m * (sum / suc c) }
{
    (m as usize) * (sum / (c as usize + 1))
}

// The sum of the degrees of a sound table: all rules in one pass over its slots.
pub fn degrees(table: &[u16]) -> Option<usize>
    requires { length table.now ≡ slots_for (limit_by table.now) }
    ensures { result ≡ summed table.now }
{
    let m = table[WIDTH];
    let c = table[CUTOFF];
    let row = row_of(m)?;
    if c < 1 || HIGHEST_CUTOFF < c {
        return None;
    }
    let limit = limit_for(table.len());
    let sum = walk(&table[FIRST..], m, row.size, table[FACTORS], limit)?;
    let taken = table[STEPS];
    if step_limit(m, c, sum) < taken as usize {
        return None;
    }
    Some(sum)
}
