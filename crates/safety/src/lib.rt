// That a change to which no refusal applies meets addresses of the layout only, whatever the words: specs/, cited by the proofs of the changes. No code.
#![tactic(auto)]

fn nothing() {}
