// THE CHANGE CALLS: start, set, clear, new reading and clock move, on any lent words. Each first decides (all its tests, no write), then writes; it
// answers the next head or its refusal, and its answer and all words that it leaves are those of the definition (calls.specs.Step), refused calls too.
//
// Cost: a change touches a bounded number of blocks and reads what it needs only. No loop runs over the blocks, tags or seconds of a store but in
// `start`, which fills the layout with zeros. A new block's words are set to zero in one loop; a closing moves its standing records one by one,
// straight from their slots, with no array of records.
#![tactic(auto)]

ghost use Rattle.calls.specs.Step.{start, set, clear, update, advance};
ghost use Rattle.changes.specs.Replied.{Replied, clearing};

use layout::head;
use layout::head::Head;
use layout::refusal::Refusal;
use layout::settings::Settings;

// A new register: the layout filled with zeros, then the head.
pub fn start(store: &mut [u32], asked: Settings) -> Result<Head, Refusal>
    ensures { Replied (start store.old asked) result store.new }
{
    let settings = decisions::decide_start(store, asked)?;
    let fresh = Head::fresh(settings);
    head::clear_layout(store, settings);
    head::write_head(store, fresh);
    Ok(fresh)
}

// A tag is set with a reading.
pub fn set(store: &mut [u32], second: u32, tag: u32, reading: u32) -> Result<Head, Refusal>
    ensures { Replied (set store.old second tag reading) result store.new }
{
    let found = decisions::decide_set(store, second, tag)?;
    let next = placing::changes::set_program(store, found, second, tag, reading);
    Ok(next)
}

// A clear or, with a reading, a new reading, in one function, so that both are decided and written by the same code.
fn clearing(store: &mut [u32], second: u32, tag: u32, reading: Option<u32>) -> Result<Head, Refusal>
    ensures { Replied (clearing store.old second tag reading) result store.new }
{
    let renews = reading.is_some();
    let found = decisions::decide_clearing(store, second, tag, renews)?;
    let next = placing::changes::clearing_program(store, found, second, tag, reading);
    Ok(next)
}

// A tag's standing record ends.
pub fn clear(store: &mut [u32], second: u32, tag: u32) -> Result<Head, Refusal>
    ensures { Replied (clear store.old second tag) result store.new }
{
    clearing(store, second, tag, None)
}

// A new reading: a clear and a set at the same second.
pub fn update(store: &mut [u32], second: u32, tag: u32, reading: u32) -> Result<Head, Refusal>
    ensures { Replied (update store.old second tag reading) result store.new }
{
    clearing(store, second, tag, Some(reading))
}

// The clock moves on.
pub fn advance(store: &mut [u32], second: u32) -> Result<Head, Refusal>
    ensures { Replied (advance store.old second) result store.new }
{
    let found = decisions::decide_advance(store, second)?;
    let next = placing::changes::advance_program(store, found, second);
    Ok(next)
}
