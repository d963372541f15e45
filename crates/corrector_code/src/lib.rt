// The numbers of the recorders' codes (docs/RULES.md section 7); the crate is else the theory that contracts and proofs
// cite.
#![tactic(auto)]

// The bytes of a word of 2047 bits.
pub const WORD: usize = 256;

// The byte that has the last bit.
pub const LAST: usize = WORD - 1;

// The highest strength.
pub const STRONGEST: u16 = 8;

// A codeword of strength t has so many check bits times t.
pub const CHECKS: u16 = 11;
