// The console program's text (document 01, "The console program"): lines gathered from bytes, read as names, settings or changes, and printed.
// Nothing is allocated; each public function equals a definition of specs/, byte for byte, for every input.
#![tactic(auto)]

mod decimal;
pub mod gather;
mod line_bytes;
pub mod parse;
pub mod print;
