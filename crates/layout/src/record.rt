// The record in a slot of a block, in the block's own words.
ghost use Rattle.std.specs.Prelude.{◌≡◌, ◌+◌, ◌*◌, ◌≤◌, ◌<◌, length};
ghost use Rattle.layout.specs.Sizes.{block_head, record_len};
ghost use Rattle.layout.specs.Parts.{slot_word};
ghost use Rattle.layout.specs.Payload.{payload_in};

use crate::payload::Payload;
use crate::{fields, parts};

#[derive(Clone, Copy)]
pub struct Record<'a> {
    pub block: &'a [u32],
    pub slot: u32,
    pub ghost within: { block_head + (record_len * slot + record_len) ≤ length block.now },
}

impl Record<'_> {
    // One of its words.
    #[inline]
    pub fn word(&self, i: u32) -> u32
        requires { i < record_len }
        ensures { result ≡ slot_word self.now.block.now self.now.slot i }
    {
        parts::slot_word(self.block, self.slot, i)
    }

    // What it tells beside its tag, from and to.
    #[inline]
    pub fn payload(&self) -> Payload
        ensures { result ≡ payload_in self.now.block.now self.now.slot }
    {
        Payload {
            reading: self.word(fields::READING),
            since: self.word(fields::SINCE),
        }
    }
}
