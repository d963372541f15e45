// Fields of 2^m elements: an element is a number below 2^m, the sum is exclusive or, the product is carry-free and
// reduced. Here is what the fields share, over the degree and the polynomial; the tables and the field types are in
// the crate field_tables, the public calls in field_elements.
#![tactic(auto)]

pub mod rows; // the fields that there are: degree, polynomial, size
pub mod arithmetic; // the reduction, the product, the square root, the position
pub mod powers; // powers by repeated squaring
pub mod division; // the inverse
pub mod solver; // the quadratic solver
pub mod tables; // the log and antilog tables of a field, as they are lent
