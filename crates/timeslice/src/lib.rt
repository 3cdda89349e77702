// The look-back: what stood at a past second, read from the store's own words (document 01, "The look-back").
#![tactic(auto)]

mod index;
mod past;
mod rows;
mod visited;
mod walk;

ghost use Rattle.timeslice.specs.Told.{Buffers};
ghost use Rattle.timeslice.specs.Answer.{LookedBack, WalkSays, Answers, SliceRefusal};

use layout::parts;
use layout::refusal::Refusal;
use past::Past;
use queries::Unsound;

// Rows given, pages read and blocks listed.
#[derive(Clone, Copy)]
pub struct Counts {
    pub rows: u32,
    pub pages: u32,
    pub blocks: u32,
}

// What an answered look-back says beside its two buffers: the three numbers, and for each level of the index the page passed, if one is.
#[derive(Clone, Copy)]
pub struct Slice {
    pub counts: Counts,
    pub pages: [Option<u32>; 3],
}

impl Past<'_> {
    // Refusals 5, 7 and 11, in order, for a store that was opened. (`window` tests two of these too, each by one comparison: a function would say no more.)
    fn test(&self, rows: usize, list: usize) -> Result<(), Refusal>
        ensures { SliceRefusal self.now rows list result }
    {
        if self.second == layout::OPEN {
            return Err(Refusal::TimeOpen);
        }
        if self.opened.head.cursor.clock < self.second {
            return Err(Refusal::Late);
        }
        if rows < layout::ROW_LEN * self.opened.head.settings.tags as usize {
            return Err(Refusal::ShortBuffer);
        }
        if list < self.opened.head.settings.blocks as usize {
            return Err(Refusal::ShortBuffer);
        }
        Ok(())
    }

    // Search, then the path from the block found; no path where none is.
    fn look(&self, rows: &mut [u32], list: &mut [u32]) -> Result<Slice, Unsound>
        requires { Buffers self.now rows.old list.old }
        ensures { WalkSays self.now rows.old list.old result rows.new list.new }
    {
        let found = self.search()?;
        let none = Counts {
            rows: 0,
            pages: found.read,
            blocks: 0,
        };
        let counts = match found.block {
            Some(start) => self.path(start, rows, list, none)?,
            None => none,
        };
        let pages = found.pages;
        Ok(Slice { counts, pages })
    }

    // The walk's answer; where it is unsound, refusal 12 fills both buffers with zeros. (By `match`: `map_err` was tried, and its proof does not close, since
    // nothing is known afterwards of buffers that its closure filled.)
    fn answer(&self, rows: &mut [u32], list: &mut [u32]) -> Result<Slice, Refusal>
        requires { Buffers self.now rows.old list.old }
        ensures { Answers self.now rows.old list.old result rows.new list.new }
    {
        match self.look(rows, list) {
            Ok(slice) => Ok(slice),
            Err(Unsound) => {
                parts::zero_all(rows);
                parts::zero_all(list);
                Err(Refusal::Unsound)
            }
        }
    }
}

// What stood at a second: its rows go into the one buffer, the reading list into the other. Refused for the first reason that applies, on any words.
pub fn look_back(
    store: &[u32],
    second: u32,
    rows: &mut [u32],
    list: &mut [u32],
) -> Result<Slice, Refusal>
    ensures { LookedBack store.now second
        rows.old list.old result rows.new list.new }
{
    let opened = queries::open(store)?;
    let past = Past { opened, second };
    past.test(rows.len(), list.len())?;
    past.answer(rows, list)
}
