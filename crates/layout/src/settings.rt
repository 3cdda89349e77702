// What a start fixes, within the limits of document 01, "The lent store".
ghost use Rattle.std.specs.Prelude.{◌≡◌};
ghost use Rattle.layout.specs.Settings.{settings_of, in_limits, settings_answer, Within};
ghost use Rattle.layout.specs.SettingsLaws.{BlockLong, StoreLong};

use crate::refusal::Refusal;
use crate::sizes;

// That settings are within their limits stays a clause (`Within`): those that a caller asks for and those that words hold may be others, and a type for
// the ones within would ask more of callers. The tests are one after the other, and not one expression, so that each line is one limit of document 01.
#[derive(Clone, Copy, Debug, PartialEq, Eq)]
pub struct Settings {
    // b: records in a block
    pub block: u32,
    // q: a judged block with fewer standing closes
    pub useful: u32,
    // B: blocks in the store
    pub blocks: u32,
    // D: tags
    pub tags: u32,
}

impl Settings {
    pub const LEAST_BLOCK: u32 = 2;

    pub const MOST_BLOCK: u32 = 64;

    pub const LEAST_USEFUL: u32 = 1;

    pub const LEAST_BLOCKS: u32 = 1;

    pub const MOST_BLOCKS: u32 = 4096;

    pub const LEAST_TAGS: u32 = 1;

    pub const MOST_TAGS: u32 = 4096;

    // Four numbers as they are asked for, in their limits or not.
    pub fn asked(block: u32, useful: u32, blocks: u32, tags: u32) -> Settings
        ensures { result ≡ settings_of block useful blocks tags }
    {
        Settings {
            block,
            useful,
            blocks,
            tags,
        }
    }

    // The settings, if each is within its limits.
    pub fn new(block: u32, useful: u32, blocks: u32, tags: u32) -> Result<Settings, Refusal>
        ensures { result ≡ settings_answer block useful blocks tags }
    {
        let s = Self::asked(block, useful, blocks, tags);
        if s.within() {
            Ok(s)
        } else {
            Err(Refusal::Settings)
        }
    }

    // Twice `useful` may not fit a word, so it is held to half of `block`.
    pub fn within(self) -> bool
        ensures { result ≡ in_limits self }
    {
        if self.block < Self::LEAST_BLOCK {
            return false;
        }
        if Self::MOST_BLOCK < self.block {
            return false;
        }
        if self.useful < Self::LEAST_USEFUL {
            return false;
        }
        if self.block / 2 < self.useful {
            return false;
        }
        if self.blocks < Self::LEAST_BLOCKS {
            return false;
        }
        if Self::MOST_BLOCKS < self.blocks {
            return false;
        }
        if self.tags < Self::LEAST_TAGS {
            return false;
        }
        if Self::MOST_TAGS < self.tags {
            return false;
        }
        true
    }

    // How many words a block has.
    pub(crate) fn block_words(self) -> usize
        requires { Within self }
        ensures { BlockLong self result }
    {
        sizes::BLOCK_HEAD + sizes::RECORD_LEN * self.block as usize
    }

    // How long a store must be.
    pub fn words(self) -> usize
        requires { Within self }
        ensures { StoreLong self result }
    {
        let block = self.block_words();
        sizes::DIR_START + self.tags as usize + self.blocks as usize * block
    }
}
