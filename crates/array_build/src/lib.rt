// THE SECOND BUILD of set, clear and new reading, for comparison (document 02, request 3): closing a block goes through an array of records. First
// all standing records are taken out, then they are placed again. No call of the register depends on this crate; the program `both_builds` compares
// answers, heads and all words of both builds.
//
// Its functions are proved safe and promise no words (docs/DECISIONS.md 53). They go by the register's own tests (`decisions`) and use its parts of a
// change (a block opens, a block leaves the row, a record ends, a record is placed); what these ask for is tested here, where `placing` has it proved.
// A part that is left out because such a test fails leaves other words than the register's; `both_builds` has found none.
#![tactic(auto)]

mod changing;
mod closing;
mod taken;

pub use changing::{clear, set, update};
use layout::refusal::number_of;

// The calls by plain numbers, for the counts of docs/BENCHMARKS.md (`array_build_c` exports them): 0 for an accepted call, else the refusal's number.
pub fn array_build_set(store: &mut [u32], second: u32, tag: u32, reading: u32) -> u32 {
    number_of(set(store, second, tag, reading))
}

pub fn array_build_clear(store: &mut [u32], second: u32, tag: u32) -> u32 {
    number_of(clear(store, second, tag))
}

pub fn array_build_update(store: &mut [u32], second: u32, tag: u32, reading: u32) -> u32 {
    number_of(update(store, second, tag, reading))
}
