// What is decided of a work table before anything is written: whether it is sound (docs/RULES.md section 4.5), and
// what a step finds in it.
ghost use Rattle.table_slots.specs.Verdicts.{Checks, Judged};

use crate::{degrees, first_above, head_of, is_table_size, level_at, step_limit};
use refusals::Refusal;

// Of the slots of a sound table: the sum of its degrees. Refusals 7 and 8.
pub fn check(table: &[u16]) -> Result<usize, Refusal>
    ensures { Checks table.now result }
{
    if !is_table_size(table.len()) {
        return Err(Refusal::Room);
    }
    degrees(table).ok_or(Refusal::Unsound)
}

// The place of the factor to split, or nothing to split. Refusals 7, 8 and 9.
pub fn judge(table: &[u16]) -> Result<Option<usize>, Refusal>
    ensures { Judged table.now result }
{
    let sum = check(table)?;
    let h = head_of(table);
    let Some(o) = first_above(table, h.cutoff) else {
        return Ok(None);
    };
    if h.m <= level_at(table, o) || step_limit(h.m, h.cutoff, sum) <= h.steps as usize {
        return Err(Refusal::Stuck);
    }
    Ok(Some(o))
}
