// The chains of maps of the known fields, and how many numbers are left to be tried at their end (specs/Chains.antt).

// Field 4.
pub const CHAIN4: [u16; 1] = [1];

pub const END4: u16 = 8;

// Field 8.
pub const CHAIN8: [u16; 4] = [136, 138, 11, 1];

pub const END8: u16 = 16;

// Field 11.
pub const CHAIN11: [u16; 6] = [1013, 78, 483, 111, 38, 8];

pub const END11: u16 = 32;
