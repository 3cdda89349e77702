// What a window reads: a store that was opened, and the seconds from a first to a last, both included.
ghost use Rattle.std.specs.Prelude.{◌≡◌, ◌≤◌};
ghost use Rattle.layout.specs.Places.{block_of, slot_of};
ghost use Rattle.window.specs.Noted.{reader_of, Named};

use layout::place;
use layout::record::Record;
use queries::Opened;

#[derive(Clone, Copy)]
pub(crate) struct Span<'a> {
    pub opened: Opened<'a>,
    pub first: u32,
    pub last: u32,
}

impl Span<'_> {
    // The record at a place.
    pub(crate) fn record_at(&self, place: u32) -> Record<'_>
        requires named { Named self.now.opened.head.settings place }
        requires some { 1 ≤ place }
        ensures block { result.block.now ≡ (reader_of self.now).block (block_of self.now.opened.head.settings place) }
        ensures slot { result.slot ≡ slot_of self.now.opened.head.settings place }
    {
        let s = self.opened.head.settings;
        Record {
            block: self.opened.block(place::block_of(s, place)),
            slot: place::slot_of(s, place),
        }
    }
}
