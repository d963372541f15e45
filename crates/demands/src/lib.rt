// Nothing to run: the crate holds the three demands on the root finder, each a record in specs/ with the law that it
// holds in proofs/.
#![tactic(auto)]
