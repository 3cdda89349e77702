// A second account of the register, for the test programs: the plain log and the block book, written anew from the paper, what they have a call
// answer and leave, and calls drawn at random. Nothing of the register takes part, and nothing is allocated.
#![tactic(auto)]

pub mod agree;
pub mod answers;
pub mod asked;
pub mod book;
pub mod buffer;
pub mod crossed;
pub mod damage;
pub mod draw;
pub mod due;
pub mod finding;
pub mod found;
pub mod history;
pub mod log;
pub mod looked;
pub mod notes;
pub mod out;
pub mod played;
pub mod random;
pub mod refusal;
pub mod settings;
pub mod store;
pub mod words;
