// Nothing to run: the crate holds the figures of docs/RULES.md section 10, and their proof.
#![tactic(auto)]
