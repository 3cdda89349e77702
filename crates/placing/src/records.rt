// A record is placed, ends, and moves to the acceptor.
// (`Able` stays a clause, as in moves.rt: each function asks that its own program meets addresses of the layout only, another fact for each. Store, head
// and second stay three arguments: what held the mutable borrow could come back with another slice, as layout/src/address.rt says.)
#![tactic(auto, using(crate::proofs::Following::follows), unfolding(calls::specs::Placing::end_record, calls::specs::Placing::put_record, calls::specs::Placing::move_record))]

ghost use Rattle.layout.specs.Ran.{Ran};
ghost use Rattle.layout.specs.Moved.{Moved};
ghost use Rattle.layout.specs.Able.{Able};
ghost use Rattle.layout.specs.OnWords.{over};
ghost use Rattle.calls.specs.Placing.{end_record, put_record, move_record};

use layout::address::Address;
use layout::head::Head;
use layout::payload::Payload;
use layout::settings::Settings;
use layout::{OPEN, address, fields, payload, place, standing};

// The record of slot k of block n ends at `second`, and stands no more.
pub fn end_record(store: &mut [u32], s: Settings, n: u32, k: u32, second: u32)
    requires { Able s (end_record n k second) store.old }
    ensures { Ran (over s) (end_record n k second) store.old tt store.new }
{
    let half = k / 32;
    let bit = k % 32;
    address::write(store, s, Address::Slot(n, k, fields::TO), second);
    let bits = address::read(store, s, Address::Bits(n, half));
    address::write(
        store,
        s,
        Address::Bits(n, half),
        standing::bit_off(bits, bit),
    );
}

// A record goes to the acceptor's next slot, from `second` on, and the directory follows.
pub fn put_record(store: &mut [u32], h: Head, second: u32, tag: u32, payload: Payload) -> Head
    requires { Able h.settings (put_record h.settings h.cursor second tag payload) store.old }
    ensures { Moved h (put_record h.settings h.cursor second tag payload)
        store.old result store.new }
{
    let s = h.settings;
    let n = h.cursor.opened;
    let k = h.cursor.fill;
    let place = place::place_of(s, n, k);
    address::write(store, s, Address::Slot(n, k, fields::TAG), tag);
    payload::write(store, s, n, k, payload);
    address::write(store, s, Address::Slot(n, k, fields::FROM), second);
    address::write(store, s, Address::Slot(n, k, fields::TO), OPEN);
    let bits = address::read(store, s, Address::Bits(n, k / 32));
    address::write(
        store,
        s,
        Address::Bits(n, k / 32),
        standing::bit_on(bits, k % 32),
    );
    address::write(store, s, Address::Dir(tag), place);
    h.filled()
}

// The standing record of slot k of block x ends at `second` and is placed again, from then on, in an acceptor that has room.
pub(crate) fn move_record(store: &mut [u32], h: Head, x: u32, k: u32, second: u32) -> Head
    requires { Able h.settings (move_record h.settings x second k h.cursor) store.old }
    ensures { Moved h (move_record h.settings x second k h.cursor)
        store.old result store.new }
{
    let s = h.settings;
    let tag = address::read(store, s, Address::Slot(x, k, fields::TAG));
    let payload = payload::read(store, s, x, k);
    end_record(store, s, x, k, second);
    put_record(store, h, second, tag, payload)
}
