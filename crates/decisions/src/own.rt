// A change's own tests, once the store is opened and the second has passed.
ghost use Rattle.std.specs.Prelude.{◌≡◌, leb};
ghost use Rattle.layout.specs.RefusalNumbers.{refused};
ghost use Rattle.calls.specs.Refusals.{set_own, clear_own};
ghost use Rattle.decisions.specs.Ready.{words_in};
ghost use Rattle.decisions.specs.Verdict.{more};
ghost use Rattle.decisions.specs.TestLaws.{RefusalOf};
ghost use Rattle.decisions.specs.SoundLaws.{out_test};

use crate::entry::Entry;
use crate::{effect, sound};
use layout::address::Address;
use layout::refusal::Refusal;
use queries::Opened;

// Refusal 8: the tag is D or more.
fn beyond_tags(found: &Opened, tag: u32) -> bool
    ensures { result ≡ leb found.now.head.settings.tags tag }
{
    found.head.settings.tags <= tag
}

// Refusal 13 where a block opens.
pub(crate) fn test_opening(found: &Opened) -> Result<(), Refusal>
    ensures { RefusalOf (out_test found.now.head) (refused result) }
{
    if effect::all_opened(found) {
        return Err(Refusal::OutOfBlocks);
    }
    Ok(())
}

// Refusals 8, 9, 12 and 13 of a set. Most sets open no block: for these the acceptor is not looked at.
pub(crate) fn test_set(found: &Opened, tag: u32) -> Result<(), Refusal>
    ensures { RefusalOf (set_own found.now.head (words_in found.now) tag) (refused result) }
{
    if beyond_tags(found, tag) {
        return Err(Refusal::Tag);
    }
    // (A word of the store, as in `test_clear`.)
    if found.read(Address::Dir(tag)) != 0 {
        return Err(Refusal::Standing);
    }
    if !effect::opens(found, 1) {
        return Ok(());
    }
    if sound::unsound_for_set(found) {
        return Err(Refusal::Unsound);
    }
    test_opening(found)
}

// Refusals 8, 10, 12 and 13 of a clear or a new reading.
pub(crate) fn test_clear(found: &Opened, tag: u32, renews: bool) -> Result<(), Refusal>
    ensures { RefusalOf (clear_own (more renews) found.now.head (words_in found.now) tag) (refused result) }
{
    if beyond_tags(found, tag) {
        return Err(Refusal::Tag);
    }
    let place = found.read(Address::Dir(tag));
    // A word of the store: 0 where nothing stands, as document 01 lays the directory out.
    if place == 0 {
        return Err(Refusal::NotStanding);
    }
    let entry = Entry { found, tag, place };
    entry.test_ending(renews)
}
