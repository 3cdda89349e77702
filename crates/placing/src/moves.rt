// Blocks are judged: one with fewer than q standing closes, and its standing records are placed again. Room for a record is made so, too.
// (`Able` stays a clause: each function asks that its own program meets addresses of the layout only, another fact for each, so none for a type to keep.)
#![tactic(auto, using(crate::proofs::Following::follows), unfolding(calls::specs::Placing::roll, calls::specs::Placing::make_room, calls::specs::Placing::place, calls::specs::Placing::replace))]

ghost use Rattle.std.specs.Prelude.{◌≡◌, ℕ, ltb, length};
ghost use Rattle.layout.specs.declared.settings.Settings.{Settings};
ghost use Rattle.layout.specs.declared.head.Cursor.{Cursor};
ghost use Rattle.layout.specs.Moved.{Moved};
ghost use Rattle.layout.specs.Able.{Able};
ghost use Rattle.layout.specs.Program.{Prog, each};
ghost use Rattle.layout.specs.Standing.{slots};
ghost use Rattle.calls.specs.Placing.{move_record, roll, make_room, place, replace};
ghost use Rattle.placing.specs.Steps.{judge_by};

use crate::{blocks, records};
use layout::head::Head;
use layout::settings::Settings;
use layout::standing::Standing;
use layout::{address, payload};

// How the standing records of a block that closes move: the program that each of them goes by, and the code that runs it.
pub(crate) trait Moves {
    ghost program: { Settings → ℕ → ℕ → ℕ → Cursor → Prog Cursor };

    // The record of slot k of block x moves.
    fn move_slot(store: &mut [u32], h: Head, x: u32, k: u32, second: u32) -> Head
        requires { Able h.settings (program h.settings x second k h.cursor) store.old }
        ensures { Moved h (program h.settings x second k h.cursor)
            store.old result store.new };
}

// Straight to the acceptor, a new block that has room for all of them: so the records of the old acceptor move.
pub(crate) struct Straight;

impl Moves for Straight {
    ghost program = { move_record };

    fn move_slot(store: &mut [u32], h: Head, x: u32, k: u32, second: u32) -> Head {
        records::move_record(store, h, x, k, second)
    }
}

// To where any record goes, room for each made before: so the records of another block move.
pub(crate) struct Anew;

impl Moves for Anew {
    ghost program = { replace };

    fn move_slot(store: &mut [u32], h: Head, x: u32, k: u32, second: u32) -> Head {
        let with_room = make_room(store, h, second);
        records::move_record(store, with_room, x, k, second)
    }
}

// The records of these slots of block x move, in slot order. Blocks close seldom: compiled apart, this and `roll` leave the registers to the changes
// that close none, into which `place` is compiled (docs/DECISIONS.md 38).
#[inline(never)]
fn move_all<M: Moves>(store: &mut [u32], h: Head, x: u32, second: u32, bits: Standing) -> Head
    requires { Able h.settings (each (M.program h.settings x second) (slots bits) h.cursor) store.old }
    ensures { Moved h (each (M.program h.settings x second) (slots bits) h.cursor)
        store.old result store.new }
{
    let mut head = h;
    for k in bits.slots() {
        head = M::move_slot(store, head, x, k, second);
    }
    head
}

// Judged: with fewer than q standing, a block closes. How many stand is the number of ones in its two words.
fn too_few(s: Settings, bits: Standing) -> bool
    ensures { result ≡ ltb (length (slots bits)) s.useful }
{
    bits.count() < s.useful
}

// Block x is judged: with fewer than q standing it closes, and its standing records move.
pub(crate) fn judge<M: Moves>(store: &mut [u32], h: Head, x: u32, second: u32) -> Head
    requires { Able h.settings (judge_by M.program h.settings h.cursor x second) store.old }
    ensures { Moved h (judge_by M.program h.settings h.cursor x second)
        store.old result store.new }
{
    let s = h.settings;
    let bits = address::standing(store, s, x);
    if too_few(s, bits) {
        let unlinked = blocks::unlink(store, h, x, second);
        return move_all::<M>(store, unlinked, x, second, bits);
    }
    h
}

// Block N + 1 opens, then block N, if any, is judged.
#[inline(never)]
fn roll(store: &mut [u32], h: Head, second: u32) -> Head
    requires { Able h.settings (roll h.settings h.cursor second) store.old }
    ensures { Moved h (roll h.settings h.cursor second) store.old result store.new }
{
    let last = h.cursor.opened;
    let opened = blocks::open_block(store, h, second);
    // (The number of blocks opened, where 0 is none, as document 01 lays it out.)
    if last == 0 {
        return opened;
    }
    judge::<Straight>(store, opened, last, second)
}

// Room for a record: a block opens if the acceptor is full, or N is 0.
fn make_room(store: &mut [u32], h: Head, second: u32) -> Head
    requires { Able h.settings (make_room h.settings h.cursor second) store.old }
    ensures { Moved h (make_room h.settings h.cursor second) store.old result store.new }
{
    if h.cursor.opened == 0 || h.cursor.fill == h.settings.block {
        return roll(store, h, second);
    }
    h
}

// A record is placed, where there is room or after room is made.
#[inline]
pub(crate) fn place(store: &mut [u32], h: Head, second: u32, tag: u32, reading: u32) -> Head
    requires { Able h.settings (place h.settings h.cursor second tag reading) store.old }
    ensures { Moved h (place h.settings h.cursor second tag reading)
        store.old result store.new }
{
    let with_room = make_room(store, h, second);
    let told = payload::told(reading, second);
    records::put_record(store, with_room, second, tag, told)
}
