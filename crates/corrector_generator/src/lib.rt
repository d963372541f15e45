// The generators of the codes. What leaves at the top of a register of 11 t binary digits comes back as a remainder by
// the generator of strength t; of strengths 5 and 8 those remainders are constants in place.
#![tactic(auto)]

// kept: (d) the two files differ in their tables and a type: a generic sum of rows would take the five tables of either
// as arguments, and ask in its contract for what one test over each table proves where it stands.
pub mod rows5; // by the generator of strength 5: 55 digits
pub mod rows8; // by the generator of strength 8: 88 digits
