// WHAT THE CONSOLE DOES (document 01, "The console program"): each input line through the register, and the output lines for it. All of it works
// on lent words and bytes and is proved equal to specs/Console.antt; a program only reads bytes, feeds them and writes what is printed.
#![tactic(auto)]

pub mod feed;
pub mod lent;
pub mod print;
pub mod turn;
