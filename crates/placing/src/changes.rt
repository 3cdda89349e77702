// What an accepted change or clock move does to the store: the head is moved on, its clock at the call's second, stored and handed back.
// (`Able` stays a clause, as in moves.rt: each function asks that its own program meets addresses of the layout only, another fact for each. Store, head
// and second stay three arguments: what held the mutable borrow could come back with another slice, as layout/src/address.rt says.)
#![tactic(auto, using(crate::proofs::Following::follows), unfolding(calls::specs::Placing::clear_tag, calls::specs::Placing::finish, calls::specs::Placing::set_program, calls::specs::Placing::clear_program, calls::specs::Placing::update_program, calls::specs::Placing::advance_program))]

ghost use Rattle.layout.specs.Moved.{Moved};
ghost use Rattle.layout.specs.Able.{Able};
ghost use Rattle.calls.specs.Placing.{clear_tag, finish, set_program, advance_program};
ghost use Rattle.placing.specs.Steps.{Listed, clearing_program};

use crate::moves::Anew;
use crate::{moves, records};
use layout::address::Address;
use layout::head::Head;
use layout::{address, head, place};

// A tag's standing record ends and the directory forgets it; its block, if it is not the acceptor, is judged.
fn clear_tag(store: &mut [u32], h: Head, second: u32, tag: u32) -> Head
    requires able { Able h.settings (clear_tag h.settings h.cursor second tag) store.old }
    requires listed { Listed h.settings store.old tag }
    ensures { Moved h (clear_tag h.settings h.cursor second tag)
        store.old result store.new }
{
    let s = h.settings;
    let place = address::read(store, s, Address::Dir(tag));
    let n = place::block_of(s, place);
    let k = place::slot_of(s, place);
    records::end_record(store, s, n, k, second);
    address::write(store, s, Address::Dir(tag), 0);
    if n == h.cursor.opened {
        return h;
    }
    moves::judge::<Anew>(store, h, n, second)
}

// The next head, its clock at `second`, stored and handed back.
fn finish(store: &mut [u32], h: Head, second: u32) -> Head
    requires { Able h.settings (finish h.settings second h.cursor) store.old }
    ensures { Moved h (finish h.settings second h.cursor) store.old result store.new }
{
    let next = h.at(second);
    head::write_cursor(store, next);
    next
}

// A tag is set.
pub fn set_program(store: &mut [u32], h: Head, second: u32, tag: u32, reading: u32) -> Head
    requires { Able h.settings (set_program h.settings h.cursor second tag reading) store.old }
    ensures { Moved h (set_program h.settings h.cursor second tag reading)
        store.old result store.new }
{
    let placed = moves::place(store, h, second, tag, reading);
    finish(store, placed, second)
}

// A tag is cleared, or gets a new reading: a clear and a set at the same second.
pub fn clearing_program(
    store: &mut [u32],
    h: Head,
    second: u32,
    tag: u32,
    reading: Option<u32>,
) -> Head
    requires able { Able h.settings (clearing_program h.settings h.cursor second tag reading) store.old }
    requires listed { Listed h.settings store.old tag }
    ensures { Moved h (clearing_program h.settings h.cursor second tag reading)
        store.old result store.new }
{
    let cleared = clear_tag(store, h, second, tag);
    match reading {
        None => finish(store, cleared, second),
        Some(told) => {
            let renewed = moves::place(store, cleared, second, tag, told);
            finish(store, renewed, second)
        }
    }
}

// The clock moves.
pub fn advance_program(store: &mut [u32], h: Head, second: u32) -> Head
    requires { Able h.settings (advance_program h.settings h.cursor second) store.old }
    ensures { Moved h (advance_program h.settings h.cursor second)
        store.old result store.new }
{
    finish(store, h, second)
}
