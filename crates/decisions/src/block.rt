// A block that a change may close: what a clear in it will do, and whether what is needed of it is sound.
ghost use Rattle.std.specs.Prelude.{◌≡◌, ◌&&◌, ◌+◌};
ghost use Rattle.layout.specs.Address.{Numbered};
ghost use Rattle.layout.specs.Standing.{slots, block_bits};
ghost use Rattle.calls.specs.Refusals.{remaining, closes, copies, any_of, bad_block};
ghost use Rattle.decisions.specs.Ready.{words_in};
ghost use Rattle.decisions.specs.Verdict.{more};
ghost use Rattle.decisions.specs.SoundLaws.{bad_links, bad_slot};

use layout::address::Address;
use layout::fields;
use queries::Opened;

#[derive(Clone, Copy)]
pub(crate) struct Block<'a> {
    pub found: &'a Opened<'a>,
    pub number: u32,
    pub ghost numbered: { Numbered found.now.head.settings number },
}

impl Block<'_> {
    // How many of its records stand once one has ended.
    fn remaining(&self) -> u32
        ensures { result ≡ remaining self.now.found.now.head (words_in self.now.found.now) self.now.number }
    {
        self.found.standing(self.number).count().saturating_sub(1)
    }

    // It closes by a clear of one of its records: it is not the acceptor and fewer than q remain.
    fn closes(&self) -> bool
        ensures { result ≡ closes self.now.found.now.head (words_in self.now.found.now) self.now.number }
    {
        if self.number == self.found.head.cursor.opened {
            return false;
        }
        self.remaining() < self.found.head.settings.useful
    }

    // The records that a clear in it makes move: those that remain, if it closes.
    fn copies(&self) -> u32
        ensures { result ≡ copies self.now.found.now.head (words_in self.now.found.now) self.now.number }
    {
        if self.closes() {
            return self.remaining();
        }
        0
    }

    // The records that a clear or, with its own besides, a new reading in it places.
    pub(crate) fn incoming(&self, renews: bool) -> u32
        ensures { result ≡ copies self.now.found.now.head (words_in self.now.found.now) self.now.number + more renews }
    {
        self.copies() + u32::from(renews)
    }

    // An up not below it; a right, unless it is the acceptor, not above it and up to N.
    fn links_are_bad(&self) -> bool
        ensures { result ≡ bad_links self.now.found.now.head (words_in self.now.found.now) self.now.number }
    {
        let n = self.number;
        if n <= self.found.read(Address::Field(n, fields::UP)) {
            return true;
        }
        if n == self.found.head.cursor.opened {
            return false;
        }
        let right = self.found.read(Address::Field(n, fields::RIGHT));
        if right <= n {
            return true;
        }
        self.found.head.cursor.opened < right
    }

    // A standing slot k is b or higher, or its tag is D or more. The tag of a slot that no block has is not read.
    fn slot_is_bad(&self, k: u32) -> bool
        ensures { result ≡ bad_slot self.now.found.now.head (words_in self.now.found.now) self.now.number k }
    {
        if self.found.head.settings.block <= k {
            return true;
        }
        let tag = self.found.read(Address::Slot(self.number, k, fields::TAG));
        self.found.head.settings.tags <= tag
    }

    // One of its standing slots is bad.
    fn slots_are_bad(&self) -> bool
        ensures { result ≡ any_of (bad_slot self.now.found.now.head (words_in self.now.found.now) self.now.number)
            (slots (block_bits (words_in self.now.found.now) self.now.number)) }
    {
        self.found
            .standing(self.number)
            .slots()
            .any(|k| self.slot_is_bad(k))
    }

    // What is unsound of it where it will close.
    pub(crate) fn is_bad(&self) -> bool
        ensures { result ≡ bad_block self.now.found.now.head (words_in self.now.found.now) self.now.number }
    {
        if self.links_are_bad() {
            return true;
        }
        self.slots_are_bad()
    }

    // It closes by a clear in it, and is unsound.
    pub(crate) fn closing_is_bad(&self) -> bool
        ensures { result ≡ (closes self.now.found.now.head (words_in self.now.found.now) self.now.number
            && bad_block self.now.found.now.head (words_in self.now.found.now) self.now.number) }
    {
        if !self.closes() {
            return false;
        }
        self.is_bad()
    }
}
