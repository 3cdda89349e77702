// WHAT A RECORD TELLS beside its tag, from and to: a set or a new reading writes it, and every copy carries it whole.
ghost use Rattle.std.specs.Prelude.{◌≡◌};
ghost use Rattle.layout.specs.Spot.{Spot};
ghost use Rattle.layout.specs.OnWords.{over, Held};
ghost use Rattle.layout.specs.Ran.{Ran};
ghost use Rattle.layout.specs.Payload.{new_payload, get_payload, set_payload};

use crate::address::Address;
use crate::settings::Settings;
use crate::{address, fields};

#[derive(Clone, Copy, Default)]
pub struct Payload {
    pub reading: u32,
    // the second of the last set or new reading
    pub since: u32,
}

// What a set or a new reading at `second` tells.
pub fn told(reading: u32, second: u32) -> Payload
    ensures { result ≡ new_payload reading second }
{
    Payload {
        reading,
        since: second,
    }
}

// Of the record in slot k of block n.
pub fn read(store: &[u32], s: Settings, n: u32, k: u32) -> Payload
    requires spot { Spot s n k }
    requires held { Held s store.now }
    ensures { Ran (over s) (get_payload n k) store.now result store.now }
{
    let reading = address::read(store, s, Address::Slot(n, k, fields::READING));
    let since = address::read(store, s, Address::Slot(n, k, fields::SINCE));
    Payload { reading, since }
}

// Written to slot k of block n.
pub fn write(store: &mut [u32], s: Settings, n: u32, k: u32, p: Payload)
    requires spot { Spot s n k }
    requires held { Held s store.old }
    ensures { Ran (over s) (set_payload n k p) store.old tt store.new }
{
    address::write(store, s, Address::Slot(n, k, fields::READING), p.reading);
    address::write(store, s, Address::Slot(n, k, fields::SINCE), p.since);
}
