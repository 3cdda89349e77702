// After an accepted start or change: the store against the book and the log.
use crate::book::{Block, Book};
use crate::finding::{Finding, unless};
use crate::history::History;
use crate::settings::{BITS_WORD, BLOCK_HEAD, DIRECTORY, RECORD_WORDS};
use crate::store::{Store, placed, word};
use crate::words::OPEN;

// The mark of a head.
const HEAD_MARK: u32 = 7001;

// Compared of the head: mark and settings, N and the clock, and the six zeros.
fn head(words: &[u32], history: &History) -> bool {
    let s = history.settings();
    let due = [
        HEAD_MARK,
        s.block,
        s.useful,
        s.blocks,
        s.tags,
        history.book.opened(),
        history.clock,
    ];
    words.starts_with(due.as_slice()) && words.iter().take(16).skip(10).all(|word| *word == 0)
}

// The records placed are the book's; and records placed × (b − q + 1) ≤ b × accepted sets and new readings.
fn placed_agree(words: &[u32], history: &History) -> Result<(), Finding> {
    let s = history.settings();
    let count = placed(words);
    unless(count == history.book.placed(), Finding::Placed)?;
    let share = s.block.saturating_sub(s.useful).saturating_add(1);
    let sets = history.log.sets() as u64;
    let is_bound = u64::from(count) * u64::from(share) <= sets.saturating_mul(u64::from(s.block));
    unless(is_bound, Finding::Bound)
}

// A slot's standing bit is set if the book's record at a place stands; then the slot has no end. If there is a record, the slot has its tag.
fn slot_agrees(slot: &[u32], bit: bool, place: u32, book: &Book) -> bool {
    let stands = book.stands(place);
    let tagged = book.tag_at(place).is_none_or(|tag| word(slot, 0) == tag);
    bit == stands && tagged && (!stands || word(slot, 3) == OPEN)
}

// The words of block n of the book: its opening and closing second, and its slots with their standing bits.
fn block_agrees(words: &[u32], n: u32, block: Block, book: &Book) -> Result<(), Finding> {
    let Some((own, records)) = words.split_at_checked(BLOCK_HEAD) else {
        return Err(Finding::Seconds);
    };
    let seconds = [block.opened, block.closed.unwrap_or(OPEN)];
    unless(own.starts_with(seconds.as_slice()), Finding::Seconds)?;
    let mut bits = u64::from(own[BITS_WORD]) | u64::from(own[BITS_WORD + 1]) << 32;
    let places = book.settings.places(n);
    for (slot, place) in records.chunks_exact(RECORD_WORDS).zip(places) {
        unless(slot_agrees(slot, bits & 1 == 1, place, book), Finding::Slot)?;
        bits >>= 1;
    }
    Ok(())
}

// All blocks of the book, with every slot.
fn blocks_agree(words: &[u32], book: &Book) -> Result<(), Finding> {
    for (n, block) in (1u32..=640).zip(&book.blocks) {
        let start = book.settings.block_start(n);
        let end = start.saturating_add(book.settings.block_words());
        let block_words = words.get(start..end).ok_or(Finding::Seconds)?;
        block_agrees(block_words, n, *block, book)?;
    }
    Ok(())
}

// The directory has for each tag the place of its standing record, or 0.
fn directory(words: &[u32], book: &Book) -> bool {
    let Some(words) = words.get(DIRECTORY..) else {
        return false;
    };
    let mut pairs = words.iter().zip(book.places());
    pairs.all(|(word, place)| *word == place.unwrap_or(0))
}

// The whole store against book and log.
pub fn store_agrees(store: &Store, history: &History) -> Result<(), Finding> {
    let words = store.words();
    unless(head(words, history), Finding::Head)?;
    placed_agree(words, history)?;
    blocks_agree(words, &history.book)?;
    unless(directory(words, &history.book), Finding::Directory)
}
