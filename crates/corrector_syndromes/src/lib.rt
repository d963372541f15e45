// The odd syndromes: the values of a remainder at a, a^3, .., a^15, of which the first t are those of the word at
// strength t. Each digit of the remainder adds its row of powers.
#![tactic(auto)]

ghost use Rattle.std.specs.Prelude.{◌*◌, ◌^◌, ◌<◌};
ghost use Rattle.corrector_syndromes.specs.Syndromes.{RowAdded, ValuesAdded, OddValues};

mod powers; // the constant table

use crate::powers::ODD_POWERS;
use corrector_code::{CHECKS, STRONGEST};

// So many syndromes are odd: at a, a^3, .., a^15.
pub const ODD: usize = STRONGEST as usize;

// A remainder has so many digits.
const DIGITS: usize = CHECKS as usize * ODD;

// Of its digits so many stand in the lower part.
const LOWER: u128 = 1 << 64;

// Adds the row of x^j to the values.
fn add_row(s: &mut [u16; ODD], j: usize)
    requires { j < 88 }
    ensures { RowAdded s.old j s.new }
{
    let row = &ODD_POWERS[j];
    // kept: (c) with `s.iter_mut().zip(row)` the goal `returns` stays open: nothing ties s.new to what was written
    for k in 0..ODD {
        s[k] ^= row[k];
    }
}

// Adds the values of n x^j at a, a^3, .., a^15.
fn add_values(s: &mut [u16; ODD], n: u64, j: usize)
    requires { n * 2 ^ j < 2 ^ 88 }
    ensures { ValuesAdded s.old n j s.new }
{
    let mut x = n;
    let mut i = j;
    // kept: (d) the digits end with the highest; a `for` over all places would need a break, and a halving beside it
    while x != 0 {
        if x % 2 == 1 {
            add_row(s, i);
        }
        x /= 2;
        i += 1;
    }
}

// The values of a remainder at a, a^3, .., a^15: the odd syndromes.
pub fn odd_values(r: u128) -> [u16; ODD]
    requires { r < 2 ^ 88 }
    ensures { OddValues r result }
{
    let mut s = [0; ODD];
    add_values(&mut s, (r % LOWER) as u64, 0);
    add_values(&mut s, (r / LOWER) as u64, 64);
    s
}
