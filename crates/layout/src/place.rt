// Places, which the directory keeps and which decisions, placing and window read: slot k (from 0) of block n has place (n - 1) * b + k + 1.
ghost use Rattle.std.specs.Prelude.{◌≡◌, ◌≤◌};
ghost use Rattle.layout.specs.Settings.{Within};
ghost use Rattle.layout.specs.Places.{place_of, block_of, slot_of};
ghost use Rattle.layout.specs.Spot.{Spot};

use crate::settings::Settings;

// (That a place is not 0, which is none, stays a clause: `placing` takes a place from the directory where it knows that one is there, and a `NonZeroU32`
// would be tested for there once more.)
// (Block and slot stay two numbers: an address, a program and a law name the one or the other, and a struct of both would be taken apart at each.)

// The place of slot k of block n.
pub fn place_of(s: Settings, n: u32, k: u32) -> u32
    requires { Spot s n k }
    ensures { result ≡ place_of s n k }
{
    (n - 1) * s.block + k + 1
}

// The block of a place. (Place 0 is none.)
pub fn block_of(s: Settings, place: u32) -> u32
    requires within { Within s }
    requires le_place { 1 ≤ place }
    ensures { result ≡ block_of s place }
{
    let full = (place - 1) / s.block;
    full + 1
}

// The slot of a place.
pub fn slot_of(s: Settings, place: u32) -> u32
    requires within { Within s }
    requires le_place { 1 ≤ place }
    ensures { result ≡ slot_of s place }
{
    (place - 1) % s.block
}
