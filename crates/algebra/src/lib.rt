// Nothing to run: the crate holds the theory that contracts and proofs cite.
#![tactic(auto)]
