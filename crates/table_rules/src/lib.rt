// A theory: the work table, its sizes, soundness and steps, the groups of roots and demand 3. There is no code.
#![tactic(auto)]
