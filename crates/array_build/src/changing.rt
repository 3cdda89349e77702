// Set, clear and new reading: decided as the register decides them, then carried out.
// (Store and head stay two arguments, and `Held` a clause: a struct that held the mutable borrow could come back with another slice, layout/src/address.rt.)
ghost use Rattle.std.specs.Prelude.{◌≤◌, ◌<◌};
ghost use Rattle.layout.specs.OnWords.{Held};
ghost use Rattle.array_build.specs.Kept.{Kept};

use crate::closing;
use crate::closing::Anew;
use crate::taken::Record;
use layout::address::Address;
use layout::head::Head;
use layout::refusal::Refusal;
use layout::{address, head, payload, place};
use placing::records;

// The next head, its clock at `second`, is stored.
fn finish(store: &mut [u32], h: Head, second: u32) -> Head
    requires { Held h.settings store.old }
{
    let next = h.at(second);
    head::write_cursor(store, next);
    next
}

// A new record.
fn place_new(store: &mut [u32], h: Head, second: u32, tag: u32, reading: u32) -> Head
    requires { Held h.settings store.old }
    ensures { Kept h result store.new }
{
    let told = payload::told(reading, second);
    closing::place(store, h, second, Record { tag, payload: told })
}

// A tag's standing record ends and the directory forgets it; its block, if it is not the acceptor, is judged.
fn clear_tag(store: &mut [u32], h: Head, second: u32, tag: u32) -> Head
    requires held { Held h.settings store.old }
    requires tag_lt_tags { tag < h.settings.tags }
    ensures { Kept h result store.new }
{
    let s = h.settings;
    let place = address::read(store, s, Address::Dir(tag));
    // (A word of the store, where 0 is none, as document 01 lays it out.)
    if place == 0 {
        return h;
    }
    let n = place::block_of(s, place);
    if s.blocks < n {
        return h;
    }
    let k = place::slot_of(s, place);
    records::end_record(store, s, n, k, second);
    address::write(store, s, Address::Dir(tag), 0);
    if n == h.cursor.opened {
        return h;
    }
    closing::judge::<Anew>(store, h, n, second)
}

// A tag is set with a reading.
pub fn set(store: &mut [u32], second: u32, tag: u32, reading: u32) -> Result<Head, Refusal> {
    let found = decisions::decide_set(store, second, tag)?;
    let placed = place_new(store, found, second, tag, reading);
    Ok(finish(store, placed, second))
}

// A clear or, with a reading, a new reading, in one function, as in `changes`. (Always in line: without, a call that closes a block with 31 records
// executed 3 % more.)
#[inline(always)]
fn clearing(
    store: &mut [u32],
    second: u32,
    tag: u32,
    reading: Option<u32>,
) -> Result<Head, Refusal> {
    let renews = reading.is_some();
    let found = decisions::decide_clearing(store, second, tag, renews)?;
    let cleared = clear_tag(store, found, second, tag);
    let left = match reading {
        Some(reading) => place_new(store, cleared, second, tag, reading),
        None => cleared,
    };
    Ok(finish(store, left, second))
}

// A tag's standing record ends.
pub fn clear(store: &mut [u32], second: u32, tag: u32) -> Result<Head, Refusal> {
    clearing(store, second, tag, None)
}

// A new reading: a clear and a set at the same second.
pub fn update(store: &mut [u32], second: u32, tag: u32, reading: u32) -> Result<Head, Refusal> {
    clearing(store, second, tag, Some(reading))
}
