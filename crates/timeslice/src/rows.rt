// The row taker: it is handed a block, a part of the store, and writes the rows that stand at a second behind those already given.
// (Buffer and number of rows stay two values: C lends the one as words and is answered the other; and a struct that held the mutable borrow could come
// back with another slice, as layout/src/address.rt says.)
ghost use Rattle.std.specs.Prelude.{◌≡◌, ◌+◌, ◌*◌, length};
ghost use Rattle.layout.specs.Sizes.{block_head, record_len};
ghost use Rattle.calls.specs.Walk.{row_of, rows_of};
ghost use Rattle.timeslice.specs.Taken.{Takes, RowBuffer};

use crate::past::Past;
use layout::fields;
use layout::record::Record;
use queries::{Unsound, rows};

impl Past<'_> {
    // The row of a record, if it stands then: the rows given with it, and more of them than tags are unsound.
    // Most records that do not stand have ended, so the end is tested first.
    fn take_row(&self, source: &Record, rows: &mut [u32], given: u32) -> Result<u32, Unsound>
        requires { RowBuffer self.now given rows.old }
        ensures { Takes self.now.opened.head.settings.tags rows.old given (row_of self.now.second source.now.block.now source.now.slot) result rows.new }
    {
        if source.word(fields::TO) <= self.second {
            return Ok(given);
        }
        if self.second < source.word(fields::FROM) {
            return Ok(given);
        }
        if self.opened.head.settings.tags <= given {
            return Err(Unsound);
        }
        rows::put_row(source, rows, given);
        Ok(given + 1)
    }

    // The rows of a block, in slot order, of all its slots. (By number: an iterator of a block's records would be a type with laws of its own for this one
    // loop. `window` makes the same record in its loop, but needs the number for the place.)
    pub(crate) fn take_rows(
        &self,
        block: &[u32],
        rows: &mut [u32],
        given: u32,
    ) -> Result<u32, Unsound>
        requires whole { length block.now ≡ block_head + record_len * self.now.opened.head.settings.block }
        requires row_buffer { RowBuffer self.now given rows.old }
        ensures { Takes self.now.opened.head.settings.tags rows.old given (rows_of self.now.opened.head.settings.block self.now.second block.now) result
            rows.new }
    {
        let mut so_far = given;
        for k in 0..self.opened.head.settings.block {
            so_far = self.take_row(&Record { block, slot: k }, rows, so_far)?;
        }
        Ok(so_far)
    }
}
