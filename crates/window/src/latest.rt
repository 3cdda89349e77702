// The latest record of each tag, by its place. Of the blocks that are read each slot is passed once, in the order of places;
// a record that stood in the window is noted if it is later than the one noted for its tag.
ghost use Rattle.std.specs.Prelude.{◌≡◌, ℕ, ◌+◌, ◌-◌, ◌≤◌, length, replicate};
ghost use Rattle.layout.specs.Sizes.{block_head};
ghost use Rattle.layout.specs.Address.{Numbered};
ghost use Rattle.layout.specs.PartsLaws.{BlockPart};
ghost use Rattle.layout.specs.Spot.{Spot};
ghost use Rattle.calls.specs.Range.{record_in, is_read, stood_in};
ghost use Rattle.window.specs.Noted.{reader_of, later_place, Named, NotedBlocks, NotesBlocks, NotedTo, NotesTo, NotesAll};

use crate::span::Span;
use layout::record::Record;
use layout::settings::Settings;
use layout::{fields, parts, place};
use queries::Unsound;

// For each tag the place of the record noted, 0 where none is.
pub(crate) type Latest = [u32; Settings::MOST_TAGS as usize];

// Opened by the last second and not closed by the first. (Here and below the two seconds come by value and no `&Span`: read behind a reference for each
// slot, they made a window of the year execute 7 % more at b = 8 and 8 % more at b = 64, counted as rust/count.sh does.)
fn is_read(block: &[u32], first: u32, last: u32) -> bool
    requires { block_head ≤ length block.now }
    ensures { result ≡ is_read first last block.now }
{
    parts::block_word(block, fields::OPENED) <= last
        && first < parts::block_word(block, fields::CLOSED)
}

// The record stood at some second of the window.
fn stood_in(source: &Record, first: u32, last: u32) -> bool
    ensures { (s : Settings) (n : ℕ) → result ≡ stood_in first last (record_in s n source.now.block.now source.now.slot) }
{
    let from = source.word(fields::FROM);
    let to = source.word(fields::TO);
    if last < from || to <= first {
        return false;
    }
    from < to
}

impl Span<'_> {
    // The later of the record noted at a place, if there is one, and a record of a greater place that stands from `from` on.
    // (A place of 0 is none: places count from 1, and the array keeps one word a tag. Of `Option`s, which have a tag of their own, it would take twice the
    // stack, 33 KB for 16.5.)
    fn later(&self, noted: u32, place: u32, from: u32) -> u32
        requires { Named self.now.opened.head.settings noted }
        ensures { result ≡ later_place self.now.opened.head.settings (reader_of self.now) noted place from }
    {
        if noted == 0 {
            return place;
        }
        if self.record_at(noted).word(fields::FROM) <= from {
            return place;
        }
        noted
    }

    // Slot k of block n, whose words these are: a record that stood in the window with a tag of D or more is unsound.
    fn note_slot(&self, block: &[u32], n: u32, k: u32, best: &mut Latest) -> Result<(), Unsound>
        requires spot { Spot self.now.opened.head.settings n k }
        requires block_part { BlockPart self.now.opened.head.settings self.now.opened.store.now n block.now }
        requires noted_to { NotedTo self.now n k best.old }
        ensures { NotesTo self.now n (k + 1) result best.new }
    {
        let source = Record { block, slot: k };
        if !stood_in(&source, self.first, self.last) {
            return Ok(());
        }
        let tag = source.word(fields::TAG);
        if self.opened.head.settings.tags <= tag {
            return Err(Unsound);
        }
        let from = source.word(fields::FROM);
        let at = tag as usize;
        best[at] = self.later(
            best[at],
            place::place_of(self.opened.head.settings, n, k),
            from,
        );
        Ok(())
    }

    // Block n, all its slots; nothing of a block that is not read.
    fn note_block(&self, n: u32, best: &mut Latest) -> Result<(), Unsound>
        requires numbered { Numbered self.now.opened.head.settings n }
        requires noted_blocks { NotedBlocks self.now (n - 1) best.old }
        ensures { NotesBlocks self.now n result best.new }
    {
        let block = self.opened.block(n);
        if !is_read(block, self.first, self.last) {
            return Ok(());
        }
        for k in 0..self.opened.head.settings.block {
            self.note_slot(block, n, k, best)?;
        }
        Ok(())
    }

    // All blocks opened.
    pub(crate) fn note_blocks(&self, best: &mut Latest) -> Result<(), Unsound>
        requires { best.old ≡ replicate 4096 0 }
        ensures { NotesAll self.now result best.new }
    {
        for n in 1..=self.opened.head.cursor.opened {
            self.note_block(n, best)?;
        }
        Ok(())
    }
}
