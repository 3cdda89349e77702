// The words of a store by what they are, and never by where they lie.
//
// Store and settings stay two arguments, and that the one holds the other (`Held`) a clause: what changes a store borrows it mutably, and a struct that
// held that borrow could come back with another slice, so each contract would say besides that it is the same. (For reads: `queries::Opened`.) That a
// block, a slot or an address is one of the layout's (`Numbered`, `Spot`, `Valid`) is a clause too: it says how numbers stand to the settings beside them, and
// a struct of both would be made for the call and taken apart in its first line. (Where such a number is handed on and on: `decisions::block::Block`.)
ghost use Rattle.std.specs.Prelude.{◌≡◌};
ghost use Rattle.layout.specs.Address.{Numbered, Valid};
ghost use Rattle.layout.specs.Program.{get!, set!, wipe! };
ghost use Rattle.layout.specs.Settings.{Within};
ghost use Rattle.layout.specs.Ran.{Ran};
ghost use Rattle.layout.specs.OnWords.{over, Held};
ghost use Rattle.layout.specs.Standing.{block_bits};
ghost use Rattle.layout.specs.OffsetLaws.{LevelAt, BlockAt, AtOffset};

use crate::settings::Settings;
use crate::standing::Standing;
use crate::{fields, parts, sizes};

#[derive(Clone, Copy)]
pub enum Address {
    // a word of the head
    Head(usize),
    // level and entry of the index
    Time(u32, u32),
    // a tag's directory entry
    Dir(u32),
    // a link or second of a block
    Field(u32, u32),
    // a block's standing bits, low (0) and high (1)
    Bits(u32, u32),
    // a word of a slot's record: block, slot, word
    Slot(u32, u32, u32),
}

// Where a level of the index starts. (A level is a number: the search counts down by it, and addresses name it.)
pub(crate) fn level_start(l: u32) -> usize
    ensures { LevelAt l result }
{
    match l {
        0 => sizes::LEVEL_0,
        1 => sizes::LEVEL_1,
        _ => sizes::LEVEL_2,
    }
}

// Where block n starts: blocks are counted from 1.
pub(crate) fn block_start(s: Settings, n: u32) -> usize
    requires numbered { Numbered s n }
    requires within { Within s }
    ensures { BlockAt s n result }
{
    let before = n - 1;
    let len = s.block_words();
    sizes::DIR_START + s.tags as usize + before as usize * len
}

// Where a word lies.
fn offset_of(s: Settings, a: Address) -> usize
    requires valid { Valid s a }
    requires within { Within s }
    ensures { AtOffset s a result }
{
    match a {
        Address::Head(j) => j,
        Address::Time(l, i) => level_start(l) + i as usize,
        Address::Dir(t) => sizes::DIR_START + t as usize,
        Address::Field(n, j) => block_start(s, n) + j as usize,
        Address::Bits(n, w) => block_start(s, n) + (sizes::BITS_START + w as usize),
        Address::Slot(n, k, i) => {
            block_start(s, n) + (sizes::BLOCK_HEAD + (sizes::RECORD_LEN * k as usize + i as usize))
        }
    }
}

// The word at an address.
pub fn read(store: &[u32], s: Settings, a: Address) -> u32
    requires valid { Valid s a }
    requires held { Held s store.now }
    ensures { Ran (over s) (get! a) store.now result store.now }
{
    let place = offset_of(s, a);
    store[place]
}

// A word stored at an address; no other changes.
pub fn write(store: &mut [u32], s: Settings, a: Address, v: u32)
    requires valid { Valid s a }
    requires held { Held s store.old }
    ensures { Ran (over s) (set! a v) store.old tt store.new }
{
    let at = offset_of(s, a);
    store[at] = v;
}

// The standing bits of block n.
pub fn standing(store: &[u32], s: Settings, n: u32) -> Standing
    requires numbered { Numbered s n }
    requires held { Held s store.now }
    ensures { result ≡ block_bits ((over s).read store.now) n }
{
    let low = read(store, s, Address::Bits(n, fields::LOW));
    let high = read(store, s, Address::Bits(n, fields::HIGH));
    Standing { low, high }
}

// All words of block n set to zero.
pub fn wipe(store: &mut [u32], s: Settings, n: u32)
    requires numbered { Numbered s n }
    requires held { Held s store.old }
    ensures { Ran (over s) (wipe! n) store.old tt store.new }
{
    let start = block_start(s, n);
    parts::zero_part(store, start, s.block_words());
}
