// The block book of the paper, written from its text alone: blocks in order, from 1, each with an opening second and a closing second or none,
// and records in order. Before a block opens, the one before it has b records: so a record's place, counted from 1 through all blocks, tells
// its block and its slot. A tag has one standing record at most.
ghost use Rattle.std.specs.Prelude.{◌≡◌, count_by, is_some, length};

use crate::asked::Action;
use crate::refusal::{Answer, Refusal};
use crate::settings::Settings;
use arrayvec::ArrayVec;
use std::ops::Range;

// More blocks, records and tags than any history here has.
const MOST_BLOCKS: usize = 640;

const MOST_RECORDS: usize = 2048;

const MOST_TAGS: usize = 64;

// More blocks than a change opens: the records that it moves fit one, since a block that closes has fewer than q and 2q is at most b.
const MOST_OPENED: u32 = 2;

#[derive(Clone, Copy, Default)]
pub struct Block {
    pub opened: u32,
    pub closed: Option<u32>,
    // How many of its records stand.
    standing: u32,
}

#[derive(Clone, Drop)]
pub struct Book {
    pub settings: Settings,
    pub blocks: ArrayVec<Block, MOST_BLOCKS>,
    // By place, the record's tag.
    tags: ArrayVec<u32, MOST_RECORDS>,
    // By tag, the place of its standing record: what the directory must be.
    places: [Option<u32>; MOST_TAGS],
}

impl Block {
    // "A block is open at t if opened ≤ t < closed."
    pub(crate) fn is_open_at(self, t: u32) -> bool {
        self.opened <= t && self.closed.is_none_or(|closed| t < closed)
    }
}

impl Book {
    pub(crate) fn new(settings: Settings) -> Book {
        Book {
            settings,
            blocks: ArrayVec::new(),
            tags: ArrayVec::new(),
            places: [None; MOST_TAGS],
        }
    }

    // How many blocks there are.
    pub fn opened(&self) -> u32
        ensures { result ≡ length self.now.blocks.items }
    {
        u32::try_from(self.blocks.len()).unwrap()
    }

    // How many records were placed.
    pub(crate) fn placed(&self) -> u32 {
        u32::try_from(self.tags.len()).unwrap()
    }

    // How many blocks were opened by t, and how many of them are open at t.
    pub(crate) fn opened_by(&self, t: u32) -> u32 {
        let opened = self.blocks.iter().filter(|block| block.opened <= t);
        u32::try_from(opened.count()).unwrap()
    }

    pub(crate) fn open_at(&self, t: u32) -> u32 {
        let open = self.blocks.iter().filter(|block| block.is_open_at(t));
        u32::try_from(open.count()).unwrap()
    }

    pub fn closed(&self) -> u32
        ensures { result ≡ count_by (λ block. is_some block.closed) self.now.blocks.items }
    {
        let closed = self.blocks.iter().filter(|block| block.closed.is_some());
        u32::try_from(closed.count()).unwrap()
    }

    // For each tag the place of its standing record.
    pub(crate) fn places(&self) -> &[Option<u32>] {
        let tags = (self.settings.tags as usize).min(MOST_TAGS);
        &self.places[..tags]
    }

    // The tag of the record at a place, if there is one.
    pub(crate) fn tag_at(&self, place: u32) -> Option<u32> {
        self.tags.get(place.checked_sub(1)? as usize).copied()
    }

    // The place of a tag's standing record, if it stands.
    pub(crate) fn place_of(&self, tag: u32) -> Option<u32> {
        self.places.get(tag as usize).copied().flatten()
    }

    // The record at a place stands.
    pub fn stands(&self, place: u32) -> bool {
        self.tag_at(place)
            .is_some_and(|tag| self.place_of(tag) == Some(place))
    }

    fn set_place(&mut self, tag: u32, place: Option<u32>) {
        if let Some(known) = self.places.get_mut(tag as usize) {
            *known = place;
        }
    }

    // The block of a place.
    fn block_of(&mut self, place: u32) -> Option<&mut Block> {
        let n = self.settings.block_of(place);
        self.blocks.get_mut(n.saturating_sub(1) as usize)
    }

    // A standing record ends; its tag.
    fn end(&mut self, place: u32) -> u32 {
        let tag = self.tag_at(place).unwrap_or(0);
        self.set_place(tag, None);
        if let Some(block) = self.block_of(place) {
            block.standing = block.standing.saturating_sub(1);
        }
        tag
    }

    // "then the tag goes, standing, to the end of the last block"
    fn append(&mut self, tag: u32) {
        if !self.tags.is_full() {
            self.tags.push(tag);
        }
        let place = self.placed();
        self.set_place(tag, Some(place));
        if let Some(block) = self.block_of(place) {
            block.standing = block.standing.saturating_add(1);
        }
    }

    // A standing record ends and its tag is written to the last block, which has room.
    fn carry(&mut self, place: u32) {
        if self.stands(place) {
            let tag = self.end(place);
            self.append(tag);
        }
    }

    // A standing record of a judged block ends and is written, which may open a block.
    fn move_on(&mut self, place: u32, second: u32) {
        if self.stands(place) {
            self.make_room(second);
            self.carry(place);
        }
    }

    // "if fewer than q of the block's records stand, it closes at s": the places of the records that then have to be gone through.
    fn close(&mut self, n: u32, second: u32) -> Range<u32> {
        let useful = self.settings.useful;
        let places = self.settings.places(n);
        match self.blocks.get_mut(n.saturating_sub(1) as usize) {
            Some(block) if block.standing < useful => {
                block.closed = Some(second);
                places
            }
            _ => 0..0,
        }
    }

    // "Judge: if fewer than q of the block's records stand, it closes at s, all of these end, and their tags are written in order." The
    // caller says how a record is rewritten: that may open a block, whose opening judges with another rewriting, so `judge` does not call itself.
    fn judge<F: Fn(&mut Book, u32)>(&mut self, n: u32, second: u32, rewrite: F)
        requires { F.IsAlwaysCallable rewrite }
    {
        for place in self.close(n, second) {
            rewrite(self, place);
        }
    }

    // "if there is no block or the last has b records, a block opens at s as the last, and the former last, if any, is judged"
    fn make_room(&mut self, second: u32) {
        let former = self.opened();
        if self.placed() != self.settings.before(former.saturating_add(1))
            || self.blocks.is_full()
        {
            return;
        }
        self.blocks.push(Block {
            opened: second,
            closed: None,
            standing: 0,
        });
        // It has room for all that stand in the former last.
        if former != 0 {
            self.judge(former, second, |book, place| book.carry(place));
        }
    }

    fn set(&mut self, tag: u32, second: u32) {
        self.make_room(second);
        self.append(tag);
    }

    // "A clear ends the tag's standing record and, if that is not in the last block, judges its block."
    fn clear(&mut self, tag: u32, second: u32) {
        let Some(place) = self.place_of(tag) else {
            return;
        };
        self.end(place);
        let n = self.settings.block_of(place);
        if n != self.opened() {
            self.judge(n, second, |book, place| book.move_on(place, second));
        }
    }

    // A set, a clear, or a new reading: "the clear, then the set".
    fn make(&mut self, second: u32, action: Action) {
        match action {
            Action::Set { tag, .. } => self.set(tag, second),
            Action::Clear { tag } => self.clear(tag, second),
            Action::Update { tag, .. } => {
                self.clear(tag, second);
                self.set(tag, second);
            }
            Action::Advance => (),
        }
    }

    // A change is made in the book, and taken back where the book would then have more than B blocks. (The former book is copied, onto the stack,
    // which does not fail; and only where blocks may run out, since that takes longer than the change itself.)
    pub(crate) fn take(&mut self, second: u32, action: Action) -> Answer {
        if self.opened().saturating_add(MOST_OPENED) <= self.settings.blocks {
            self.make(second, action);
            return Ok(());
        }
        let Ok(former) = self.clone() else {
            return Err(Refusal::OutOfBlocks);
        };
        self.make(second, action);
        if self.opened() <= self.settings.blocks {
            return Ok(());
        }
        *self = former;
        Err(Refusal::OutOfBlocks)
    }
}
