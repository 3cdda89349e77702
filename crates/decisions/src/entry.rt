// A tag that stands, by its entry in the directory: what its clear or new reading needs, and whether that is sound.
ghost use Rattle.std.specs.Prelude.{◌≡◌};
ghost use Rattle.layout.specs.Places.{block_of, slot_of};
ghost use Rattle.layout.specs.RefusalNumbers.{refused};
ghost use Rattle.layout.specs.Spot.{Lies};
ghost use Rattle.calls.specs.Refusals.{after_clear, bad_place};
ghost use Rattle.decisions.specs.Ready.{words_in, PlaceOf, place_of_prop};
ghost use Rattle.decisions.specs.Verdict.{more};
ghost use Rattle.decisions.specs.TestLaws.{RefusalOf};
ghost use Rattle.decisions.specs.SoundLaws.{bad_acceptor, ending_tests};

use crate::block::Block;
use crate::{effect, own, sound};
use layout::address::Address;
use layout::refusal::Refusal;
use layout::standing::Standing;
use layout::{fields, place};
use queries::Opened;

#[derive(Clone, Copy)]
pub(crate) struct Entry<'a> {
    pub found: &'a Opened<'a>,
    pub tag: u32,
    // what the directory has for the tag, which is not 0
    pub place: u32,
    pub ghost place_of: { PlaceOf found.now tag place } by { place_of_prop found.now tag place },
}

impl Entry<'_> {
    // The number of the place's block.
    fn block(&self) -> u32
        ensures { result ≡ block_of self.now.found.now.head.settings self.now.place }
    {
        place::block_of(self.found.head.settings, self.place)
    }

    // The slot of the place.
    fn slot(&self) -> u32
        ensures { result ≡ slot_of self.now.found.now.head.settings self.now.place }
    {
        place::slot_of(self.found.head.settings, self.place)
    }

    // The place is above the records placed, or its record has another tag or no standing bit.
    fn place_is_bad(&self) -> bool
        ensures { result ≡ bad_place self.now.found.now.head (words_in self.now.found.now) self.now.tag }
    {
        if self.found.head.placed() < self.place {
            return true;
        }
        let n = self.block();
        let k = self.slot();
        if self.found.read(Address::Slot(n, k, fields::TAG)) != self.tag {
            return true;
        }
        !self.found.standing(n).has(k)
    }

    // The acceptor's standing bits, with the record at the place ended if it lies there.
    fn after_clear(&self) -> Standing
        requires { Lies self.now.found.now.head self.now.place }
        ensures { result ≡ after_clear self.now.found.now.head (words_in self.now.found.now) self.now.tag }
    {
        let acceptor = self.found.head.cursor.opened;
        let b = self.found.standing(acceptor);
        if self.block() == acceptor {
            return b.without(self.slot());
        }
        b
    }

    // The acceptor as a clear leaves it, where a block opens.
    fn acceptor_is_bad(&self) -> bool
        requires { Lies self.now.found.now.head self.now.place }
        ensures { result ≡ bad_acceptor self.now.found.now.head (words_in self.now.found.now)
            (after_clear self.now.found.now.head (words_in self.now.found.now) self.now.tag) }
    {
        sound::acceptor_is_bad(self.found, self.after_clear())
    }

    // Refusals 12 and 13 of its clear or new reading. Most of them open no block.
    pub(crate) fn test_ending(&self, renews: bool) -> Result<(), Refusal>
        ensures { RefusalOf (ending_tests (more renews) self.now.found.now.head (words_in self.now.found.now) self.now.tag) (refused result) }
    {
        if self.place_is_bad() {
            return Err(Refusal::Unsound);
        }
        let block = Block {
            found: self.found,
            number: self.block(),
        };
        if block.closing_is_bad() {
            return Err(Refusal::Unsound);
        }
        let incoming = block.incoming(renews);
        if !effect::opens(self.found, incoming) {
            return Ok(());
        }
        if self.acceptor_is_bad() {
            return Err(Refusal::Unsound);
        }
        own::test_opening(self.found)
    }
}
