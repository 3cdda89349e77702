// Definitions and proofs only: the second proved table, of the edges of the refusals (specs/Edges.antt).
#![tactic(auto)]

fn nothing() {}
