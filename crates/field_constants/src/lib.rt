// Field 11 by tables in read-only memory: a look-up is a load. So a call that makes a few products builds nothing and
// asks for no memory.
#![tactic(auto)]

pub mod arithmetic; // products, inverses, square roots, quadratics
pub mod tables; // the log, the antilog and the half-root of an element
