// Polynomials over a known field, on lent slices of coefficients, constant first, and over the tables of the
// field. Each routine leaves what a function of the crate algebra says. A polynomial to divide by is monic: it is
// held without its leading 1, and lent as the logs of its coefficients.
#![tactic(auto)]

pub mod elements; // the square of an element
pub mod rows; // the kernel: a multiple of a row is added
pub mod division; // remainder and quotient
pub mod monic; // the degree, and division by the leading coefficient
pub mod values; // evaluation
pub mod product; // the product of z + r over roots
