// What an accepted change closed and moved, found from the words of the first build's store before the change and after it: neither build is
// asked.
use model::asked::Kind;
use model::settings::{BITS_WORD, CLOSED_WORD, DIRECTORY, OPENED_WORD, Settings};
use model::store::{Store, placed, settings, word};

#[derive(Clone, Copy)]
pub struct Closings {
    // b of the store.
    pub block: u32,
    // N of the store after the change.
    pub opened: u32,
    // How many blocks closed, and how many of them had a standing slot that the directory did not name.
    pub closed: u32,
    pub strays: u32,
    // How many records the change wrote beside its own.
    pub moved: u32,
}

// The words of a store before a change and after it.
#[derive(Clone, Copy)]
struct Words<'a> {
    before: &'a [u32],
    after: &'a [u32],
    settings: Settings,
}

impl<'a> Words<'a> {
    // Block n has another closed word after the change. (On a damaged store its closed word may have been the change's second: then this misses
    // it.)
    fn closes(self, n: u32) -> bool {
        let place = self.settings.block_start(n).saturating_add(CLOSED_WORD);
        word(self.before, place) != word(self.after, place)
    }

    // Before the change slot k of block n stood, and the directory did not name it: only on a damaged store.
    fn is_stray(self, n: u32, k: u32) -> bool {
        let bits_word = BITS_WORD + (k / 32) as usize;
        let bits = word(
            self.before,
            self.settings.block_start(n).saturating_add(bits_word),
        );
        let tag = word(self.before, self.settings.slot_start(n, k));
        let place = self.settings.before(n).saturating_add(k).saturating_add(1);
        let named = word(self.before, DIRECTORY + tag as usize) == place;
        bits >> (k % 32) & 1 == 1 && !named
    }

    // Block n had such a slot.
    fn has_strays(self, n: u32) -> bool {
        (0..self.settings.block).any(|k| self.is_stray(n, k))
    }
}

impl Closings {
    // What a change of this kind closed and moved, since the store was kept.
    pub(crate) fn of(store: &Store, kind: Kind) -> Closings {
        let words = Words {
            before: store.kept(),
            after: store.words(),
            settings: settings(store.kept()),
        };
        let opened = word(words.before, OPENED_WORD);
        let closed = (1..=opened).filter(|n| words.closes(*n));
        let strays = (1..=opened).filter(|n| words.closes(*n) && words.has_strays(*n));
        // A set and a new reading write a record of their own.
        let own = u32::from(matches!(kind, Kind::Set | Kind::Update));
        let moved = placed(words.after).saturating_sub(placed(words.before).saturating_add(own));
        Closings {
            block: words.settings.block,
            opened: word(words.after, OPENED_WORD),
            closed: u32::try_from(closed.count()).unwrap(),
            strays: u32::try_from(strays.count()).unwrap(),
            moved,
        }
    }
}
