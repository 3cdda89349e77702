// Changes on damaged stores: both builds answer and leave the same.
use crate::closings::Closings;
use crate::run::Run;
use model::asked::Kind;
use model::damage;
use model::random::Random;
use model::settings::{BITS_WORD, OPENED_WORD};
use model::store::word;

// A round: the store is damaged, the same words in both; then changes.
const ROUND: u32 = 24;

const ROUNDS: u32 = 4;

// The kind of a change, for a number below 16: clears oftener than in a history, since they close blocks.
fn kind_of(r: u32) -> Kind {
    match r {
        0..=3 => Kind::Set,
        4..=10 => Kind::Clear,
        11..=14 => Kind::Update,
        _ => Kind::Advance,
    }
}

// About one bit in eight of a block's slots, of the first 32 at most.
fn some_bits(random: &mut Random, block: u32) -> u32 {
    let bits = random.word() & random.word() & random.word();
    match 1u32.checked_shl(block) {
        Some(end) => bits & (end - 1),
        None => bits,
    }
}

impl<'a> Run<'a> {
    // The rounds after a history.
    pub fn rounds(&mut self) {
        self.pair.store.end();
        for _ in 0..ROUNDS {
            self.damage();
            for _ in 0..ROUND {
                self.damaged_change();
            }
        }
    }

    // A store damaged as any, and for one of two rounds misled besides.
    fn damage(&mut self) {
        damage::damage(&mut self.pair.store, &mut self.history);
        if self.history.random.once_in(2) {
            self.mislead();
        }
        self.pair.store.keep();
        self.pair.level();
    }

    // Lets other records of a block stand, and gives one of them any tag: so ended records stand again, and a tag stands twice.
    fn mislead(&mut self) {
        let s = self.history.settings();
        let store = &mut self.pair.store;
        let random = &mut self.history.random;
        let n = random
            .below(word(store.words(), OPENED_WORD))
            .saturating_add(1);
        let bits = some_bits(random, s.block);
        store.put(s.block_start(n).saturating_add(BITS_WORD), bits);
        let slot = s.slot_start(n, random.below(s.block));
        store.put(slot, random.below(s.tags));
    }

    fn damaged_change(&mut self) {
        let kind = kind_of(self.history.random.below(16));
        let c = damage::change(&self.pair.store, &mut self.history, kind);
        let got = self.made(c);
        self.tally.damaged.answered(got);
        if got == Ok(Ok(())) {
            let closings = Closings::of(&self.pair.store, kind);
            self.tally.damaged.closed(closings);
            self.pair.store.keep();
        }
    }
}
