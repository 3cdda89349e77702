// The numbers of words (specs/Sizes.antt says the same). Nothing outside of this crate names one of them but OPEN, the head's length
// (a store shorter than a head is refused as such), a row's, and how many entries a page has.

// an end not yet known
pub const OPEN: u32 = 4294967295;

// the first word of a head that a start left
pub const MARK: u32 = 7001;

pub const HEAD_LEN: usize = 16;

// a page is 16 words inside its level, and a level of the index has the first of each 16 entries of the level below
pub const PAGE: u32 = 16;

// the first words of a block: seconds, links and standing bits
pub const BLOCK_HEAD: usize = 8;

// the two words of standing bits stand behind the six of seconds and links
pub const BITS_START: usize = 6;

// a slot's record: tag, reading, from, to, since
pub const RECORD_LEN: usize = 5;

// where the three levels of the index start, and the directory behind them
pub const LEVEL_0: usize = 16;

pub const LEVEL_1: usize = 4112;

pub const LEVEL_2: usize = 4368;

pub const DIR_START: usize = 4384;

// a row that a look-back gives: tag, reading, since
pub const ROW_LEN: usize = 3;
