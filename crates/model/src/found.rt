// What a query left of what it was lent, which were marks: a buffer of rows, and the words of its answer. The first of these tells how many rows.
ghost use Rattle.std.specs.Prelude.{◌≡◌, slice_index_or};
ghost use Rattle.model.specs.Marks.{AreMarks};

use crate::buffer::{Buffer, is_left, is_marked_from, marked};
use crate::refusal::Refusal;
use crate::settings::ROW_WORDS;

#[derive(Clone, Copy)]
pub struct Found<const N: usize> {
    pub rows: Buffer,
    pub answer: [u32; N],
}

impl<const N: usize> Found<N> {
    pub fn marked() -> Found<N>
        ensures rows { AreMarks result.rows }
        ensures answer { AreMarks result.answer }
    {
        Found {
            rows: marked(),
            answer: marked(),
        }
    }

    pub fn row_count(&self) -> u32
        ensures { result ≡ slice_index_or self.now.answer 0 0 }
    {
        self.answer.first().copied().unwrap_or(0)
    }

    // How many words its rows have.
    pub(crate) fn row_words(&self) -> usize {
        ROW_WORDS * self.row_count() as usize
    }

    // The words after the rows of an answered query are left.
    pub(crate) fn is_left_after(&self) -> bool {
        is_marked_from(&self.rows, self.row_words())
    }

    // A query that was lent so many words for rows left what a refused one leaves.
    pub(crate) fn is_left_by(&self, refusal: Refusal, length: usize) -> bool {
        is_left(&self.rows, refusal, length) && is_marked_from(&self.answer, 0)
    }
}
