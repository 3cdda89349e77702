// Rows as words of a buffer, one behind another: tag, reading and since.
ghost use Rattle.std.specs.Prelude.{◌+◌, ◌*◌, ◌≤◌, length};
ghost use Rattle.layout.specs.Sizes.{row_len};
ghost use Rattle.queries.specs.RowLaws.{PutsRow};

use layout::fields;
use layout::record::Record;

// The row of a record, behind the rows given.
#[inline]
pub fn put_row(source: &Record, rows: &mut [u32], given: u32)
    requires { row_len * given + row_len ≤ length rows.old }
    ensures { PutsRow source.now.block.now source.now.slot rows.old given rows.new }
{
    let at = layout::ROW_LEN * given as usize;
    let told = source.payload();
    rows[at] = source.word(fields::TAG);
    rows[at + 1] = told.reading;
    rows[at + 2] = told.since;
}
