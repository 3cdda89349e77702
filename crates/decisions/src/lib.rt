// Whether a call is accepted, by the words that it finds: the refusals of each call in their order. The store is only read here, on any words, also on
// those that no history left; a place, slot or block is looked at only once it is known to lie in the store.
#![tactic(auto)]

mod block;
mod effect;
mod entry;
mod own;
mod sound;
mod start;

ghost use Rattle.std.specs.Prelude.{[]};
ghost use Rattle.layout.specs.Head.{head_of};
ghost use Rattle.calls.specs.Refusals.{time_tests, set_tests, clear_tests};
ghost use Rattle.calls.specs.Step.{words_read};
ghost use Rattle.decisions.specs.Verdict.{Verdict, OpensAt, more};

use layout::head::Head;
use layout::refusal::Refusal;
use queries::Opened;
pub use start::decide_start;

// Refusals 2 to 6, the first of every change and clock move: else the store is opened, and this second may come.
#[inline]
fn open_at(store: &[u32], second: u32) -> Result<Opened<'_>, Refusal>
    ensures { OpensAt store.now second result }
{
    let found = queries::open(store)?;
    if layout::OPEN <= second {
        return Err(Refusal::TimeOpen);
    }
    if second < found.head.cursor.clock {
        return Err(Refusal::Early);
    }
    Ok(found)
}

// A clock move: refusals 2 to 6. Else the head from which it may go on.
pub fn decide_advance(store: &[u32], second: u32) -> Result<Head, Refusal>
    ensures { Verdict (time_tests store.now second []) (head_of store.now) result }
{
    let found = open_at(store, second)?;
    Ok(found.head)
}

// A set: refusals 2 to 6, then 8, 9, 12 and 13.
pub fn decide_set(store: &[u32], second: u32, tag: u32) -> Result<Head, Refusal>
    ensures { Verdict (set_tests store.now (words_read store.now) second tag)
        (head_of store.now) result }
{
    let found = open_at(store, second)?;
    own::test_set(&found, tag)?;
    Ok(found.head)
}

// A clear, which places copies only, or a new reading, which places its record besides: refusals 2 to 6, then 8, 10, 12 and 13.
pub fn decide_clearing(store: &[u32], second: u32, tag: u32, renews: bool) -> Result<Head, Refusal>
    ensures { Verdict (clear_tests (more renews) store.now (words_read store.now) second tag)
        (head_of store.now) result }
{
    let found = open_at(store, second)?;
    own::test_clear(&found, tag, renews)?;
    Ok(found.head)
}
