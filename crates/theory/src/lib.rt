// The proofs of demands 2 and 3 over the definitions of calls. No code.
#![tactic(auto)]

fn nothing() {}
