// The layout of the lent store: the only crate that knows numbers of words. Everything above names what it touches (Address), takes the head as
// one value (Head), and is handed a block or a page as a part of the store.
#![tactic(auto)]

pub mod address;
pub mod fields;
pub mod head;
pub mod parts;
pub mod payload;
pub mod place;
pub mod record;
pub mod refusal;
pub mod settings;
mod sizes;
pub mod standing;

pub use sizes::{HEAD_LEN, OPEN, PAGE, ROW_LEN};
