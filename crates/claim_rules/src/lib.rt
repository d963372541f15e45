// Nothing to run: the crate holds what a claim of roots is, when it is acceptable, and why that settles the roots
// (docs/RULES.md section 14).
#![tactic(auto)]
