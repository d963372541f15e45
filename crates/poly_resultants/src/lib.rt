// Successive resultants over a known field, on lent slices and over the tables of the field. With y = x^2 + b x a polynomial is f(x) =
// A(y) + x B(y), and f(x) f(x + b) = A^2 + b A B + y B^2 is a polynomial in y of the same degree, its resultant: x is a
// root of f exactly if y is a root of the resultant and A(y) + x B(y) = 0.
#![tactic(auto)]

pub mod elements; // quotients
pub mod map; // one map: digits and resultant
pub mod descent; // from the roots of the resultant to those above them
pub mod trial; // the numbers at the end of the chain
pub mod levels; // the chain of maps
pub mod constants; // the chains of the known fields
