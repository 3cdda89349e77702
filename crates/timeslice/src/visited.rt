// The rows of the blocks that a visit listed, in the list's order: of each that closes after the second.
ghost use Rattle.base.specs.Sums.{All};
ghost use Rattle.layout.specs.Address.{Numbered};
ghost use Rattle.timeslice.specs.Reading.{reader_of};
ghost use Rattle.timeslice.specs.Taken.{Takes, RowBuffer};
ghost use Rattle.timeslice.specs.Listed.{rows_at, rows_in};

use crate::past::Past;
use layout::{fields, parts};
use queries::Unsound;

impl Past<'_> {
    // The rows of one listed block, if it closes after the second.
    fn take_block(&self, number: u32, rows: &mut [u32], given: u32) -> Result<u32, Unsound>
        requires numbered { Numbered self.now.opened.head.settings number }
        requires row_buffer { RowBuffer self.now given rows.old }
        ensures { Takes self.now.opened.head.settings.tags rows.old given
            (rows_at self.now.opened.head.settings.block self.now.second (reader_of self.now) number) result rows.new }
    {
        let block = self.opened.block(number);
        if parts::block_word(block, fields::CLOSED) <= self.second {
            return Ok(given);
        }
        self.take_rows(block, rows, given)
    }

    // The rows of all blocks listed.
    pub(crate) fn take_listed(
        &self,
        listed: &[u32],
        rows: &mut [u32],
        given: u32,
    ) -> Result<u32, Unsound>
        requires all { All (Numbered self.now.opened.head.settings) listed.now }
        requires row_buffer { RowBuffer self.now given rows.old }
        ensures { Takes self.now.opened.head.settings.tags rows.old given
            (rows_in self.now.opened.head.settings.block self.now.second (reader_of self.now) listed.now) result rows.new }
    {
        let mut so_far = given;
        for &number in listed {
            so_far = self.take_block(number, rows, so_far)?;
        }
        Ok(so_far)
    }
}
