// The rows of the latest records, in ascending tag order.
// (Buffer and number of rows stay two values: C lends the one as words and is answered the other; and a struct that held the mutable borrow could come
// back with another slice, as layout/src/address.rt says.)
ghost use Rattle.std.specs.Prelude.{◌<◌};
ghost use Rattle.window.specs.Noted.{reader_of, row_at, Named, AllNamed, LongRows, Puts, Rowed};

use crate::latest::Latest;
use crate::span::Span;
use queries::rows;

impl Span<'_> {
    // The row of the record at a place, if there is one, behind the rows given. (A place of 0 is none, as `later` has it.)
    fn put_row(&self, place: u32, rows: &mut [u32], given: u32) -> u32
        requires named { Named self.now.opened.head.settings place }
        requires long_rows { LongRows self.now rows.old }
        requires given_lt_tags { given < self.now.opened.head.settings.tags }
        ensures { Puts rows.old given (row_at self.now.opened.head.settings (reader_of self.now) place) result rows.new }
    {
        if place == 0 {
            return given;
        }
        rows::put_row(&self.record_at(place), rows, given);
        given + 1
    }

    // The rows of all tags below D; the words after them keep their contents.
    pub(crate) fn put_rows(&self, best: &Latest, rows: &mut [u32]) -> u32
        requires all_named { AllNamed self.now.opened.head.settings best.now }
        requires long_rows { LongRows self.now rows.old }
        ensures { Rowed self.now best.now self.now.opened.head.settings.tags rows.old result rows.new }
    {
        let mut given = 0;
        for &place in &best[..self.opened.head.settings.tags as usize] {
            given = self.put_row(place, rows, given);
        }
        given
    }
}
