// The definitions of the register: specs/ is read by people and cited by every contract above. No code.
#![tactic(auto)]

fn nothing() {}
