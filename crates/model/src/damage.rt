// Damaged stores, and changes drawn for them: a store that a history left, with some words overwritten, mostly such as calls go by.
use crate::asked::{Action, Change, Kind};
use crate::history::History;
use crate::random::Random;
use crate::settings::{CLOCK_WORD, DIRECTORY, OPENED_WORD, Settings};
use crate::store::{Store, word};
use crate::words::OPEN;

// What a history left: its settings, N and the clock.
#[derive(Clone, Copy)]
struct Left {
    settings: Settings,
    blocks: u32,
    clock: u32,
}

impl Left {
    // A word of one of the index's three levels, among the entries of the blocks.
    fn index_word(self, random: &mut Random) -> usize {
        match random.below(3) {
            0 => 16 + random.below(self.blocks) as usize,
            1 => 4112 + random.below(self.blocks / 16 + 1) as usize,
            _ => 4368 + random.below(3) as usize,
        }
    }

    // A word of a block's own eight.
    fn block_word(self, random: &mut Random) -> usize {
        let n = random.below(self.blocks).saturating_add(1);
        let start = self.settings.block_start(n);
        start.saturating_add(random.below(8) as usize)
    }

    // A word of a record.
    fn record_word(self, random: &mut Random) -> usize {
        let n = random.below(self.blocks).saturating_add(1);
        let k = random.below(self.settings.block);
        let start = self.settings.slot_start(n, k);
        start.saturating_add(random.below(5) as usize)
    }

    // Which word is overwritten: of the head, the index, the directory, a block's own words or a record.
    fn damaged_word(self, random: &mut Random) -> usize {
        match random.below(32) {
            0 => random.below(16) as usize,
            1..=3 => self.index_word(random),
            4..=7 => DIRECTORY + random.below(self.settings.tags) as usize,
            8..=25 => self.block_word(random),
            _ => self.record_word(random),
        }
    }

    // What it is overwritten with: numbers near what may stand there, or any word.
    fn damaging_word(self, random: &mut Random) -> u32 {
        let Settings { block, tags, .. } = self.settings;
        let records = self.blocks.saturating_mul(block);
        match random.below(8) {
            0 => 0,
            1 => random.below(self.blocks.saturating_add(2)),
            2 => random.below(16),
            3 => self.clock,
            4 => OPEN,
            5 => random.word(),
            6 => random.below(tags.saturating_add(1)),
            _ => random.below(records.saturating_add(2)),
        }
    }
}

// The store as the history left it, with one to six words overwritten, mostly such as calls go by.
pub fn damage(store: &mut Store, history: &mut History) {
    store.restore();
    let left = Left {
        settings: history.settings(),
        blocks: word(store.words(), OPENED_WORD),
        clock: word(store.words(), CLOCK_WORD),
    };
    let random = &mut history.random;
    for _ in 0..random.below(6) + 1 {
        let place = left.damaged_word(random);
        store.put(place, left.damaging_word(random));
    }
    store.keep();
}

// The second of a call on a damaged store: its clock word or one near it, sometimes any.
pub fn second(store: &Store, random: &mut Random) -> u32 {
    let clock = word(store.words(), CLOCK_WORD);
    match random.below(10) {
        0 => random.word(),
        1..=3 => clock.wrapping_add(random.below(3)),
        _ => clock,
    }
}

// A change on a damaged store, lent as its history lent it.
pub fn change(store: &Store, history: &mut History, kind: Kind) -> Change {
    let tags = history.settings().tags;
    let second = second(store, &mut history.random);
    let tag = history.random.below(tags.saturating_add(1));
    let reading = history.random.word();
    Change {
        length: history.length,
        second,
        action: Action::of(kind, tag, reading),
    }
}
