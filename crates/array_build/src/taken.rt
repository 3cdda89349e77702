// The array: standing records of a block that closes, taken out of their slots.
// (Store and settings stay two arguments, and `Held` a clause: a struct that held the mutable borrow could come back with another slice,
// layout/src/address.rt.)
ghost use Rattle.std.specs.Prelude.{◌≤◌, length};
ghost use Rattle.layout.specs.Address.{Numbered};
ghost use Rattle.layout.specs.OnWords.{Held};
ghost use Rattle.layout.specs.Standing.{slots};

use arrayvec::ArrayVec;
use layout::address::Address;
use layout::payload::Payload;
use layout::settings::Settings;
use layout::standing::Standing;
use layout::{address, fields, payload};
use placing::records;

// A record without its slot: its tag, and what it tells. (Its default lies in the array's unused places.)
#[derive(Clone, Copy, Default)]
pub struct Record {
    pub tag: u32,
    pub payload: Payload,
}

// The records taken out, in slot order: a block closes with fewer than q standing, and q is 32 at most. There is no heap here, so the array has room for
// that many.
pub type Taken = ArrayVec<Record, 32>;

// The standing record of slot k of block x ends at `second` and is taken out, if the block has such a slot.
fn take(store: &mut [u32], s: Settings, x: u32, k: u32, second: u32) -> Option<Record>
    requires held { Held s store.old }
    requires numbered { Numbered s x }
    ensures { Held s store.new }
{
    if s.block <= k {
        return None;
    }
    let tag = address::read(store, s, Address::Slot(x, k, fields::TAG));
    let payload = payload::read(store, s, x, k);
    records::end_record(store, s, x, k, second);
    Some(Record { tag, payload })
}

// The standing records of block x are taken out, in slot order.
pub fn take_out(store: &mut [u32], s: Settings, x: u32, second: u32, bits: Standing) -> Taken
    requires held { Held s store.old }
    requires numbered { Numbered s x }
    requires bits_len_bound { length (slots bits) ≤ 32 }
    ensures { Held s store.new }
{
    let mut taken = Taken::new();
    for k in bits.slots() {
        if let Some(record) = take(store, s, x, k, second) {
            taken.push(record);
        }
    }
    taken
}
