// One call of any kind as one value: a step of a history (calls.specs.History) in code. `register` passes it on.
#![tactic(auto)]

mod call;

pub use call::{Answer, Call, apply};
