// Numbers and no enums, since each is where its word lies behind the first: an enum would be made a number again at each use.
//
// The words of the head, of a block's head and of a record, by name: the second part of an Address (specs/Fields.antt says the same).

// `Address::Head`: a word of the head lies at its own number
pub const HEAD_MARK: usize = 0;

pub const HEAD_BLOCK: usize = 1;

pub const HEAD_USEFUL: usize = 2;

pub const HEAD_BLOCKS: usize = 3;

pub const HEAD_TAGS: usize = 4;

pub const HEAD_OPENED: usize = 5;

pub const HEAD_CLOCK: usize = 6;

pub const HEAD_FILL: usize = 7;

pub const HEAD_CHILD: usize = 8;

pub const HEAD_RIGHT: usize = 9;

// where the six zeros begin
pub const HEAD_SPARE: usize = 10;

// `Address::Field`: the seconds and links of a block
pub const OPENED: u32 = 0;

pub const CLOSED: u32 = 1;

pub const UP: u32 = 2;

pub const LEFT: u32 = 3;

pub const CHILD: u32 = 4;

pub const RIGHT: u32 = 5;

// `Address::Bits`
pub const LOW: u32 = 0;

pub const HIGH: u32 = 1;

// `Address::Slot`: the record of a slot
pub const TAG: u32 = 0;

pub const READING: u32 = 1;

pub const FROM: u32 = 2;

pub const TO: u32 = 3;

pub const SINCE: u32 = 4;
