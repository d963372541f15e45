// The constant tables of each field, in read-only memory, and the field types over them. A table is named in one
// function and nowhere else, since each naming is proved entry by entry.
#![tactic(auto)]

mod antilogs; // the antilogs
mod halves; // the quadratic tables
mod logtables; // the logs and the powers
pub mod constants; // each of these, with what it holds
pub mod field_types; // the field types
