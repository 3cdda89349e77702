// Laws alone: branches, sums, bits and lists, for the specs of the other crates.
#![tactic(auto)]

fn nothing() {}
