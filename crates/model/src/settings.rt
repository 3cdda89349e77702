// The settings that the histories run with, and where the paper lays each word of a store with them.
ghost use Rattle.std.specs.Prelude.{◌<◌, ◌↔◌, IsTrue};

use std::ops::Range;

#[derive(Clone, Copy, PartialEq, Eq)]
pub struct Settings {
    // b: records in a block
    pub block: u32,
    // q: a full block with fewer standing is closed
    pub useful: u32,
    // B: blocks at most
    pub blocks: u32,
    // D: tags
    pub tags: u32,
}

// How many settings are listed for short histories; the next one is for the long histories.
pub const LISTED: u32 = 10;

// Of a head: N, the clock, and how many records block N has.
pub const OPENED_WORD: usize = 5;

pub const CLOCK_WORD: usize = 6;

pub const FILL_WORD: usize = 7;

// Where the directory starts: after the head's 16 words and the index's 4,096 + 256 + 16. The blocks follow it.
pub const DIRECTORY: usize = 4384;

// A block's own words, then its records: each a tag, a reading, from, to and since.
pub const BLOCK_HEAD: usize = 8;

// Of a block's own words: its closing second, and the first of its two words of standing bits.
pub const CLOSED_WORD: usize = 1;

pub const BITS_WORD: usize = 6;

pub const RECORD_WORDS: usize = 5;

// A row's words: tag, reading, since.
pub const ROW_WORDS: usize = 3;

impl Settings {
    pub(crate) fn new(block: u32, useful: u32, blocks: u32, tags: u32) -> Settings {
        Settings {
            block,
            useful,
            blocks,
            tags,
        }
    }

    // Most of the listed settings are small, so that blocks fill, close and run out within a history; some have enough blocks for two and for
    // three levels of the index. (Tables of tuples were tried for these and the bad ones: six lines more, with the number widened and cut to the
    // table's length at each, where a match has an answer for each number.)
    pub fn listed(i: u32) -> Settings {
        match i {
            0 => Settings::new(2, 1, 6, 4),
            1 => Settings::new(4, 2, 8, 16),
            2 => Settings::new(5, 2, 12, 10),
            3 => Settings::new(8, 3, 20, 12),
            4 => Settings::new(64, 32, 6, 40),
            5 => Settings::new(3, 1, 40, 8),
            6 => Settings::new(2, 1, 100, 5),
            7 => Settings::new(33, 16, 5, 50),
            8 => Settings::new(6, 3, 17, 9),
            9 => Settings::new(4, 1, 33, 24),
            _ => Settings::new(2, 1, 600, 6),
        }
    }

    // Settings at and beyond each limit. The last two are within the limits, and no store of ours is as long as their layout.
    pub fn bad(i: u32) -> Settings {
        match i {
            0 => Settings::new(1, 1, 6, 4),
            1 => Settings::new(65, 2, 6, 4),
            2 => Settings::new(4, 0, 6, 4),
            3 => Settings::new(3, 2, 6, 4),
            4 => Settings::new(4, 2, 0, 4),
            5 => Settings::new(4, 2, 4097, 4),
            6 => Settings::new(4, 2, 8, 0),
            7 => Settings::new(4, 2, 8, 4097),
            8 => Settings::new(4, u32::MAX, 8, 16),
            9 => Settings::new(u32::MAX, 2, 8, 16),
            10 => Settings::new(2, 1, 4096, 4),
            _ => Settings::new(64, 32, 4096, 4096),
        }
    }

    // "b 2 to 64, q at least 1 with 2q ≤ b, block limit B 1 to 4,096, D 1 to 4,096"
    pub fn within(self) -> bool {
        (2..=64).contains(&self.block)
            && (1..=self.block / 2).contains(&self.useful)
            && (1..=4096).contains(&self.blocks)
            && (1..=4096).contains(&self.tags)
    }

    // The settings have three levels of the index.
    pub fn is_long(self) -> bool
        ensures { IsTrue result ↔ (256 < self.blocks) }
    {
        256 < self.blocks
    }

    // How many words a block has.
    pub(crate) fn block_words(self) -> usize {
        BLOCK_HEAD + RECORD_WORDS * self.block as usize
    }

    // The first word of block n, n from 1.
    pub fn block_start(self, n: u32) -> usize {
        let before = self
            .block_words()
            .saturating_mul(n.saturating_sub(1) as usize);
        (DIRECTORY + self.tags as usize).saturating_add(before)
    }

    // The first word of slot k of block n.
    pub fn slot_start(self, n: u32, k: u32) -> usize {
        self.block_start(n)
            .saturating_add(BLOCK_HEAD + RECORD_WORDS * k as usize)
    }

    // How many words a store has: the next would be the first of the block after the last.
    pub fn layout(self) -> usize {
        self.block_start(self.blocks.saturating_add(1))
    }

    // How many words D rows have.
    pub(crate) fn row_words(self) -> usize {
        ROW_WORDS * self.tags as usize
    }

    // The block of a place. Places are counted from 1 through all blocks.
    pub fn block_of(self, place: u32) -> u32 {
        let before = place.saturating_sub(1).checked_div(self.block).unwrap_or(0);
        before.saturating_add(1)
    }

    // How many places lie before block n, and the places in it.
    pub fn before(self, n: u32) -> u32 {
        n.saturating_sub(1).saturating_mul(self.block)
    }

    pub(crate) fn places(self, n: u32) -> Range<u32> {
        let first = self.before(n).saturating_add(1);
        first..first.saturating_add(self.block)
    }
}
