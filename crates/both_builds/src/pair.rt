// A store for each build, and what both answered and left, compared.
use crate::builds;
use crate::builds::{ByArray, Straight, Told};
use model::asked::Change;
use model::buffer::lent;
use model::finding::unless;
use model::settings::Settings;
use model::store::{Store, Words, copy};
use std::fmt;

// What differs, with the number that is printed. (The numbers of `Finding` in `model` are other ones.)
#[derive(Clone, Copy)]
pub enum Difference {
    Answers = 1,
    Heads = 2,
    Words = 3,
    // The answer of the first build is not the one due.
    NotDue = 4,
}

#[derive(Default, Drop)]
pub struct Pair {
    // The store of the first build, with all that the model keeps of it.
    pub store: Store,
    // The words of the other build's store.
    other: Words,
}

impl fmt::Display for Difference {
    fn fmt<W: fmt::Write>(&self, f: &mut fmt::Formatter<W>) -> fmt::Result {
        write!(f, "{}", *self as u32)
    }
}

impl Pair {
    // The other build's store becomes the first build's.
    pub fn level(&mut self) {
        copy(&mut self.other, self.store.words());
    }

    // Both builds answered and left the same: of the stores all words that are lent, and those behind them.
    pub(crate) fn compare(&self, one: Told, another: Told) -> Result<(), Difference> {
        unless(one.err() == another.err(), Difference::Answers)?;
        unless(one == another, Difference::Heads)?;
        unless(
            *self.store.words() == *self.other.as_slice(),
            Difference::Words,
        )
    }

    // A start on both stores.
    pub fn start(&mut self, length: usize, s: Settings) -> (Told, Told) {
        let one = builds::start(self.store.lent_mut(length), s);
        let another = builds::start(lent(self.other.as_mut_slice(), length), s);
        (one, another)
    }

    // A set, clear, new reading or clock move on both stores.
    pub fn change(&mut self, c: Change) -> (Told, Told) {
        let one = builds::change::<Straight>(self.store.lent_mut(c.length), c);
        let another = builds::change::<ByArray>(lent(self.other.as_mut_slice(), c.length), c);
        (one, another)
    }
}
