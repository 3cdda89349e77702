// Refusal 12 of a change where a block opens: the acceptor closes, and is unsound. (Of the tag's place: entry.rt; of its block: block.rt.)
ghost use Rattle.std.specs.Prelude.{◌≡◌, ◌≤◌};
ghost use Rattle.layout.specs.Standing.{block_bits};
ghost use Rattle.decisions.specs.Ready.{words_in};
ghost use Rattle.decisions.specs.SoundLaws.{bad_acceptor};

use crate::block::Block;
use crate::effect;
use layout::standing::Standing;
use queries::Opened;

// The acceptor, with standing bits b, closes where a block opens, and is unsound.
pub(crate) fn acceptor_is_bad(found: &Opened, b: Standing) -> bool
    requires { 1 ≤ found.now.head.cursor.opened }
    ensures { result ≡ bad_acceptor found.now.head (words_in found.now) b }
{
    if !effect::few_when_full(found, b) {
        return false;
    }
    let acceptor = Block {
        found,
        number: found.head.cursor.opened,
    };
    acceptor.is_bad()
}

// The acceptor as a set finds it. (A set closes no other block.)
pub(crate) fn unsound_for_set(found: &Opened) -> bool
    ensures { result ≡ bad_acceptor found.now.head (words_in found.now)
        (block_bits (words_in found.now) found.now.head.cursor.opened) }
{
    if found.head.cursor.opened == 0 {
        return false;
    }
    let b = found.standing(found.head.cursor.opened);
    acceptor_is_bad(found, b)
}
