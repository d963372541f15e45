// The generators from strength 1 on, moved up to the highest digit of a register. At the register's own strength, where
// no digit is cut, the half. Written by tools/generator_rows.py.

// The highest digit is digit 54.
pub static RAISED5: [u64; 5] = [
    18058378974593024,
    20553931067228160,
    21938889704865792,
    21572689693967360,
    30000458236481382,
];

// The highest digit is digit 87.
pub static RAISED8: [u128; 8] = [
    155120294229302105979486208,
    176556923475966649140510720,
    188453627585899337418276864,
    185307993444692119382917120,
    257701973981402743900733440,
    174892602124192711744421888,
    181769517655198265300845568,
    158822812078538578024904425,
];
