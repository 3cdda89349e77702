// A block opens, and a block leaves the row of open blocks.
// (`Able` stays a clause, as in moves.rt: each function asks that its own program meets addresses of the layout only, another fact for each. Store, head
// and second stay three arguments: what held the mutable borrow could come back with another slice, as layout/src/address.rt says.)
#![tactic(auto, using(crate::proofs::Following::follows), unfolding(calls::specs::Placing::enter_time, calls::specs::Placing::open_block, calls::specs::Placing::unlink))]

ghost use Rattle.std.specs.Prelude.{◌<◌};
ghost use Rattle.layout.specs.Ran.{Ran};
ghost use Rattle.layout.specs.Moved.{Moved};
ghost use Rattle.layout.specs.Able.{Able};
ghost use Rattle.layout.specs.OnWords.{over};
ghost use Rattle.calls.specs.Placing.{enter_time, open_block, unlink};
ghost use Rattle.placing.specs.Steps.{enter_first};

use layout::address::Address;
use layout::head::Head;
use layout::settings::Settings;
use layout::{OPEN, PAGE, address, fields};

// The opening second of block i + 1 goes to a level of the index that has the first time of each `every`, if block i + 1 is such a first.
fn enter_first(store: &mut [u32], s: Settings, level: u32, every: u32, i: u32, second: u32)
    requires able { Able s (enter_first level every i second) store.old }
    requires every_nonzero { 0 < every }
    ensures { Ran (over s) (enter_first level every i second) store.old tt store.new }
{
    // (The rest of a division, a number.)
    if i % every != 0 {
        return;
    }
    address::write(store, s, Address::Time(level, i / every), second);
}

// The opening second of block i + 1 on the three levels of the index.
fn enter_time(store: &mut [u32], s: Settings, i: u32, second: u32)
    requires { Able s (enter_time i second) store.old }
    ensures { Ran (over s) (enter_time i second) store.old tt store.new }
{
    address::write(store, s, Address::Time(0, i), second);
    enter_first(store, s, 1, PAGE, i, second);
    enter_first(store, s, 2, PAGE * PAGE, i, second);
}

// Block N + 1 opens at `second`, empty, to the right of block N (block 0 if N is 0).
pub fn open_block(store: &mut [u32], h: Head, second: u32) -> Head
    requires { Able h.settings (open_block h.cursor second) store.old }
    ensures { Moved h (open_block h.cursor second) store.old result store.new }
{
    let s = h.settings;
    let last = h.cursor.opened;
    let next = last + 1;
    enter_time(store, s, last, second);
    address::wipe(store, s, next);
    address::write(store, s, Address::Field(next, fields::OPENED), second);
    address::write(store, s, Address::Field(next, fields::CLOSED), OPEN);
    address::write(store, s, Address::Field(next, fields::UP), last);
    // (The number of blocks opened, where 0 is none, as document 01 lays it out.)
    if last == 0 {
        return h.grown(next);
    }
    address::write(store, s, Address::Field(last, fields::RIGHT), next);
    h.grown(h.cursor.right)
}

// Block x closes at `second` and leaves the row of open blocks; its up, block P, takes it as its last child.
pub fn unlink(store: &mut [u32], h: Head, x: u32, second: u32) -> Head
    requires { Able h.settings (unlink h.cursor x second) store.old }
    ensures { Moved h (unlink h.cursor x second) store.old result store.new }
{
    let s = h.settings;
    let up = address::read(store, s, Address::Field(x, fields::UP));
    let right = address::read(store, s, Address::Field(x, fields::RIGHT));
    address::write(store, s, Address::Field(x, fields::CLOSED), second);
    address::write(store, s, Address::Field(right, fields::UP), up);
    // (A word of the store, where 0 is none, as document 01 lays it out.)
    if up == 0 {
        address::write(store, s, Address::Field(x, fields::LEFT), h.cursor.child);
        return h.relinked(x, right);
    }
    let child = address::read(store, s, Address::Field(up, fields::CHILD));
    address::write(store, s, Address::Field(up, fields::RIGHT), right);
    address::write(store, s, Address::Field(x, fields::LEFT), child);
    address::write(store, s, Address::Field(up, fields::CHILD), x);
    h
}
