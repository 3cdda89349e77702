// The store that is lent to the register, with some words behind the lent ones, which are compared too; and the store as it should be.
ghost use Rattle.std.specs.Prelude.{◌≡◌, ◌<◌, ◌≤◌, ◌-◌, ◌++◌, drop, replicate, length, slice_index_or, take, IsTrue};
ghost use Rattle.model.specs.Store.{words_of, kept_of, honest_of};

use crate::buffer;
use crate::settings::{FILL_WORD, OPENED_WORD, Settings};
use crate::words::mark;
use arrayvec::ArrayVec;

// More words than any history lends, and what lies behind them.
const MOST: usize = 16384;

const SPARE: usize = 32;

// The word after the settings in a head: from here on a start leaves zeros.
pub const AFTER_SETTINGS: usize = 5;

pub type Words = ArrayVec<u32, MOST>;

#[derive(Default, Drop)]
pub struct Store {
    words: Words,
    // The words as the last call had to leave them, or as the next call finds them.
    kept: Words,
    // The words as the history left them, while damaged copies of them are tried.
    honest: Words,
}

// These words in the place of those. (Those of a store have room, and are mostly as many: then they are written over, which takes half as long as to
// blank them first.)
pub fn copy(to: &mut Words, from: &[u32])
    ensures { length from.now ≤ 16384 → to.new.items ≡ from.now }
{
    if to.len() == from.len() {
        to.as_mut_slice().copy_from_slice(from);
        return;
    }
    to.clear();
    let _ = to.try_extend_from_slice(from);
}

// Zeros from one word up to another, if the words go so far.
fn put_zeros(words: &mut [u32], from: usize, to: usize)
    ensures zeros { from ≤ to → to ≤ length words.old → words.new ≡ take from words.old ++ replicate (to - from) 0 ++ drop to words.old }
    ensures short { length words.old < to → words.new ≡ words.old }
{
    if from <= to && to <= words.len() {
        words[from..to].fill(0);
    }
}

impl Store {
    // A store of marks, of which a history lends so many words.
    pub fn begin(&mut self, length: usize) {
        self.words.clear();
        let _ = self
            .words
            .extend((0..length.saturating_add(SPARE)).map(mark));
        self.keep();
        self.end();
    }

    pub fn words(&self) -> &[u32]
        ensures { result.now ≡ words_of self.now }
    {
        self.words.as_slice()
    }

    pub fn kept(&self) -> &[u32]
        ensures { result.now ≡ kept_of self.now }
    {
        self.kept.as_slice()
    }

    // The words that a call is lent: as many as are asked for, or all that there are.
    pub fn lent(&self, length: usize) -> &[u32]
        ensures { result.now ≡ take length (words_of self.now) }
    {
        let end = length.min(self.words.len());
        &self.words[..end]
    }

    pub fn lent_mut(&mut self, length: usize) -> &mut [u32]
        ensures { result.now ≡ take length (words_of self.old) }
    {
        buffer::lent(self.words.as_mut_slice(), length)
    }

    pub fn put(&mut self, place: usize, word: u32) {
        if let Some(known) = self.words.get_mut(place) {
            *known = word;
        }
    }

    // The store is kept as it is.
    pub fn keep(&mut self)
        ensures kept { kept_of self.new ≡ words_of self.old }
        ensures words { words_of self.new ≡ words_of self.old }
        ensures honest { honest_of self.new ≡ honest_of self.old }
    {
        copy(&mut self.kept, self.words.as_slice());
    }

    // A start with a layout of so many words leaves zeros after the settings, and keeps what lies beyond the layout.
    pub fn keep_started(&mut self, layout: usize)
        ensures words { words_of self.new ≡ words_of self.old }
        ensures honest { honest_of self.new ≡ honest_of self.old }
        ensures zeros { 5 ≤ layout → layout ≤ length (kept_of self.old)
            → kept_of self.new ≡ take 5 (kept_of self.old) ++ replicate (layout - 5) 0 ++ drop layout (kept_of self.old) }
        ensures short { length (kept_of self.old) < layout → kept_of self.new ≡ kept_of self.old }
    {
        put_zeros(self.kept.as_mut_slice(), AFTER_SETTINGS, layout);
    }

    // From a word on the store is as it is kept.
    pub fn is_kept_from(&self, from: usize) -> bool
        ensures kept { IsTrue result → drop from (words_of self.now) ≡ drop from (kept_of self.now) }
        ensures same { length (words_of self.now) ≡ length (kept_of self.now)
            → drop from (words_of self.now) ≡ drop from (kept_of self.now) → IsTrue result }
    {
        self.words.get(from..) == self.kept.get(from..)
    }

    // The history has ended: its words are honest.
    pub fn end(&mut self)
        ensures honest { honest_of self.new ≡ words_of self.old }
        ensures words { words_of self.new ≡ words_of self.old }
        ensures kept { kept_of self.new ≡ kept_of self.old }
    {
        copy(&mut self.honest, self.words.as_slice());
    }

    // The words are those that the history left.
    pub(crate) fn restore(&mut self)
        ensures words { words_of self.new ≡ honest_of self.old }
        ensures kept { kept_of self.new ≡ kept_of self.old }
        ensures honest { honest_of self.new ≡ honest_of self.old }
    {
        copy(&mut self.words, self.honest.as_slice());
    }
}

// A word of a store, 0 behind its end.
pub fn word(words: &[u32], place: usize) -> u32
    ensures { result ≡ slice_index_or words.now place 0 }
{
    words.get(place).copied().unwrap_or(0)
}

// The settings in a store's own head.
pub fn settings(words: &[u32]) -> Settings {
    Settings::new(
        word(words, 1),
        word(words, 2),
        word(words, 3),
        word(words, 4),
    )
}

// By a store's own head, "records placed, 0 for N = 0 and else (N − 1) × b + fill".
pub fn placed(words: &[u32]) -> u32
    ensures none { slice_index_or words.now 5 0 ≡ 0 → result ≡ 0 }
{
    match word(words, OPENED_WORD) {
        0 => 0,
        n => settings(words)
            .before(n)
            .saturating_add(word(words, FILL_WORD)),
    }
}
