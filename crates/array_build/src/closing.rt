// Blocks are judged, and one that closes goes through the array.
// (Store and head stay two arguments, and `Held` a clause: a struct that held the mutable borrow could come back with another slice, layout/src/address.rt.)
ghost use Rattle.layout.specs.Address.{Numbered};
ghost use Rattle.layout.specs.OnWords.{Held};
ghost use Rattle.array_build.specs.Kept.{Kept};

use crate::taken;
use crate::taken::Record;
use layout::address::Address;
use layout::head::Head;
use layout::{address, fields};
use placing::{blocks, records};

// A record is placed in the acceptor's next slot, if it has one.
fn put(store: &mut [u32], h: Head, second: u32, record: Record) -> Head
    requires { Held h.settings store.old }
    ensures { Kept h result store.new }
{
    let s = h.settings;
    if h.cursor.opened < 1 {
        return h;
    }
    if s.blocks < h.cursor.opened {
        return h;
    }
    if s.block <= h.cursor.fill {
        return h;
    }
    if s.tags <= record.tag {
        return h;
    }
    records::put_record(store, h, second, record.tag, record.payload)
}

// Where the records go that were taken out of a block that closes.
pub trait Places {
    // A record goes there.
    fn place(store: &mut [u32], h: Head, second: u32, record: Record) -> Head
        requires { Held h.settings store.old }
        ensures { Kept h result store.new };
}

// Straight into the acceptor, a new block that has room for all of them: so the records of the old acceptor go.
struct Straight;

impl Places for Straight {
    fn place(store: &mut [u32], h: Head, second: u32, record: Record) -> Head {
        put(store, h, second, record)
    }
}

// Where any record goes: so the records of another block go.
pub struct Anew;

impl Places for Anew {
    fn place(store: &mut [u32], h: Head, second: u32, record: Record) -> Head {
        place(store, h, second, record)
    }
}

// Records that were taken out are placed, in slot order.
#[inline(never)]
fn place_all<P: Places>(store: &mut [u32], h: Head, second: u32, taken: &[Record]) -> Head
    requires { Held h.settings store.old }
    ensures { Kept h result store.new }
{
    let mut head = h;
    for record in taken {
        head = P::place(store, head, second, *record);
    }
    head
}

// Block x closes and leaves the row of open blocks, if its up is less than x and its right is a block of the store.
fn unlink(store: &mut [u32], h: Head, x: u32, second: u32) -> Head
    requires held { Held h.settings store.old }
    requires numbered { Numbered h.settings x }
    ensures { Kept h result store.new }
{
    let s = h.settings;
    let up = address::read(store, s, Address::Field(x, fields::UP));
    let right = address::read(store, s, Address::Field(x, fields::RIGHT));
    if x <= up {
        return h;
    }
    if right < 1 {
        return h;
    }
    if s.blocks < right {
        return h;
    }
    blocks::unlink(store, h, x, second)
}

// Block x is judged: with fewer than q standing it closes, and its records are taken out and placed again.
pub fn judge<P: Places>(store: &mut [u32], h: Head, x: u32, second: u32) -> Head
    requires held { Held h.settings store.old }
    requires numbered { Numbered h.settings x }
    ensures { Kept h result store.new }
{
    let s = h.settings;
    let bits = address::standing(store, s, x);
    if s.useful <= bits.count() {
        return h;
    }
    let unlinked = unlink(store, h, x, second);
    let taken = taken::take_out(store, s, x, second, bits);
    place_all::<P>(store, unlinked, second, &taken)
}

// Block N + 1 opens, if one is left, then block N, if any, is judged.
#[inline(never)]
fn roll(store: &mut [u32], h: Head, second: u32) -> Head
    requires { Held h.settings store.old }
    ensures { Kept h result store.new }
{
    let last = h.cursor.opened;
    if h.settings.blocks <= last {
        return h;
    }
    let opened = blocks::open_block(store, h, second);
    // (The number of blocks opened, where 0 is none, as document 01 lays it out.)
    if last == 0 {
        return opened;
    }
    judge::<Straight>(store, opened, last, second)
}

// Room for a record: a block opens if the acceptor is full, or N is 0.
fn make_room(store: &mut [u32], h: Head, second: u32) -> Head
    requires { Held h.settings store.old }
    ensures { Kept h result store.new }
{
    if h.cursor.opened == 0 || h.cursor.fill == h.settings.block {
        return roll(store, h, second);
    }
    h
}

// A record is placed, where there is room or after room is made.
#[inline]
pub fn place(store: &mut [u32], h: Head, second: u32, record: Record) -> Head
    requires { Held h.settings store.old }
    ensures { Kept h result store.new }
{
    let with_room = make_room(store, h, second);
    put(store, with_room, second, record)
}
