// What a look-back left, against the log and the book.
ghost use Rattle.std.specs.Prelude.{◌≡◌, slice_index};
ghost use Rattle.model.specs.Marks.{AreMarks};

use crate::asked::LookBack;
use crate::book::Book;
use crate::buffer::{Buffer, is_left, is_marked_from, marked};
use crate::finding::{Finding, unless};
use crate::found::Found;
use crate::history::History;
use crate::log::Row;
use crate::refusal::Answer;
use crate::settings::ROW_WORDS;
use crate::words::OPEN;

// What a query leaves, and the list's buffer. The answer's six words: how many rows, pages and blocks of the list, and the page of each of the
// three levels.
#[derive(Clone, Copy)]
pub struct Looked {
    pub found: Found<6>,
    pub list: Buffer,
}

// For each level, from the lowest, how many blocks lie under one page of the level below, and of it.
const LEVELS: [(u32, u32); 3] = [(0, 16), (16, 256), (256, 4096)];

impl Looked {
    pub fn marked() -> Looked
        ensures rows { AreMarks result.found.rows }
        ensures answer { AreMarks result.found.answer }
        ensures list { AreMarks result.list }
    {
        Looked {
            found: Found::marked(),
            list: marked(),
        }
    }

    fn row_count(&self) -> u32 {
        self.found.row_count()
    }

    pub fn list_count(&self) -> u32
        ensures { result ≡ slice_index self.now.found.answer 2 }
    {
        self.found.answer[2]
    }

    // The blocks that the list names.
    fn listed(&self) -> &[u32] {
        let count = (self.list_count() as usize).min(self.list.len());
        &self.list[..count]
    }

    // What is left by a look-back, on any words: an answered one has left the words after its rows and its list, which fit the lent words. A
    // refused one has left what refused queries leave.
    pub fn left(&self, a: LookBack, answer: Answer) -> Result<(), Finding> {
        match answer {
            Ok(()) => {
                let named = self.list_count() as usize;
                let fits = self.found.row_words() <= a.row_words && named <= a.list_words;
                unless(fits, Finding::Counts)?;
                let left = self.found.is_left_after() && is_marked_from(&self.list, named);
                unless(left, Finding::After)
            }
            Err(refusal) => {
                let left = self.found.is_left_by(refusal, a.row_words)
                    && is_left(&self.list, refusal, a.list_words);
                unless(left, Finding::Touched)
            }
        }
    }

    // All that a look-back comes to after an honest history: what is left, and of an answer rows, list, limits and pages.
    pub fn agrees(&self, history: &History, a: LookBack, answer: Answer) -> Result<(), Finding> {
        self.left(a, answer)?;
        if answer.is_err() {
            return Ok(());
        }
        self.rows_agree(history, a.second)?;
        self.list_agrees(&history.book)?;
        self.limits(&history.book, a.second)?;
        self.pages_agree(&history.book, a.second)
    }

    // How many rows are this one.
    fn rows_like(&self, row: Row) -> usize {
        let rows = self
            .found
            .rows
            .chunks_exact(ROW_WORDS)
            .take(self.row_count() as usize);
        rows.filter(|words| *words == row.words().as_slice())
            .count()
    }

    // The rows are the log's state at t, order aside.
    fn rows_agree(&self, history: &History, t: u32) -> Result<(), Finding> {
        let due = history.log.state(history.settings().tags, t);
        unless(due.len() == self.row_count() as usize, Finding::Row)?;
        unless(
            due.iter().all(|row| self.rows_like(*row) == 1),
            Finding::Row,
        )
    }

    // The list names blocks of the book, none twice.
    fn list_agrees(&self, book: &Book) -> Result<(), Finding> {
        let list = self.listed();
        let times = |n: u32| list.iter().filter(|m| **m == n).count();
        let named = list
            .iter()
            .all(|n| *n != 0 && *n <= book.opened() && times(*n) == 1);
        unless(named, Finding::NotListed)
    }

    // The list has at most twice the blocks open at t, and those open, times q, are no more than the rows plus q.
    fn limits(&self, book: &Book, t: u32) -> Result<(), Finding> {
        let open = u64::from(book.open_at(t));
        let useful = u64::from(book.settings.useful);
        unless(u64::from(self.list_count()) <= 2 * open, Finding::Twice)?;
        let enough = open * useful <= u64::from(self.row_count()) + useful;
        unless(enough, Finding::Useful)
    }

    // The pages of the three levels, and how many they are.
    fn pages_agree(&self, book: &Book, t: u32) -> Result<(), Finding> {
        let due = LEVELS.map(|(fewer, blocks)| page_due(book, t, fewer, blocks));
        let pages = due.map(|page| page.unwrap_or(OPEN));
        unless(self.found.answer[3..] == pages[..], Finding::Pages)?;
        let passed = due.iter().filter(|page| page.is_some()).count();
        unless(self.found.answer[1] as usize == passed, Finding::Counts)
    }
}

// The page of a level that the last block opened by t leads through, counted from 0 in its level, if one is passed. Under one page of it lie
// `blocks`, under one of the level below `fewer`. The top level is the lowest that has all blocks under one page.
fn page_due(book: &Book, t: u32, fewer: u32, blocks: u32) -> Option<u32> {
    let all = book.opened();
    if all <= fewer {
        return None;
    }
    if all <= blocks {
        return Some(0);
    }
    book.opened_by(t).checked_sub(1)?.checked_div(blocks)
}
