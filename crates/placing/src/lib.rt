// How a change places records and closes blocks: the programs of crates/calls/specs/Placing.antt in code, each function proved to run its program.
// A change touches a bounded number of blocks: a loop here turns once for each standing slot of one block, and none goes over B, D or N.
// Every function asks for a store on which its program meets no address but the layout's (Able); the call that tests its arguments shows that.
#![tactic(auto)]

pub mod blocks;
pub mod changes;
mod moves;
pub mod records;
