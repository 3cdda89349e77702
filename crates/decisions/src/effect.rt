// Whether a change opens a block, by the words that it finds, and what the acceptor comes to then. (What a block does: block.rt.)
ghost use Rattle.std.specs.Prelude.{◌≡◌, ◌-◌, ◌≤◌, eqb};
ghost use Rattle.calls.specs.Refusals.{opens, taken_up};
ghost use Rattle.decisions.specs.EffectLaws.{few_when_full};

use layout::standing::Standing;
use queries::Opened;

// Incoming records open a block if there are any and the acceptor has no room for all of them.
pub(crate) fn opens(found: &Opened, incoming: u32) -> bool
    ensures { result ≡ opens found.now.head incoming }
{
    let h = found.head;
    if incoming == 0 {
        return false;
    }
    if h.cursor.opened == 0 {
        return true;
    }
    h.settings.block - h.cursor.fill < incoming
}

// The slots from `from` up to `to` made to stand.
fn taken_up(b: Standing, from: u32, to: u32) -> Standing
    requires { to ≤ 64 }
    ensures { result ≡ taken_up b from (to - from) }
{
    let mut taken = b;
    for k in from..to {
        taken = taken.with(k);
    }
    taken
}

// The acceptor, with standing bits b, has fewer than q standing once its free slots are taken. It is judged so when a block opens.
pub(crate) fn few_when_full(found: &Opened, b: Standing) -> bool
    ensures { result ≡ few_when_full found.now.head b }
{
    let h = found.head;
    let full = taken_up(b, h.cursor.fill, h.settings.block);
    full.count() < h.settings.useful
}

// No block is left to open: N = B.
pub(crate) fn all_opened(found: &Opened) -> bool
    ensures { result ≡ eqb found.now.head.cursor.opened found.now.head.settings.blocks }
{
    let h = found.head;
    h.cursor.opened == h.settings.blocks
}
