// Crossing a window (document 02, request 2): each tag that stood at some second from a first to a last, once, as its
// latest record there tells it.
#![tactic(auto)]

mod latest;
mod rows;
mod span;

ghost use Rattle.std.specs.Prelude.{◌≡◌, ◌||◌};
ghost use Rattle.calls.specs.Refusals.{is_open};
ghost use Rattle.window.specs.Windowed.{Windowed, Answers, WindowRefusal};
ghost use Rattle.window.specs.Noted.{LongRows};

use latest::Latest;
use layout::parts;
use layout::refusal::Refusal;
use layout::settings::Settings;
use queries::Unsound;
use span::Span;

impl Span<'_> {
    // One of the two seconds is OPEN.
    fn is_open(&self) -> bool
        ensures { result ≡ (is_open self.now.first || is_open self.now.last) }
    {
        self.first == layout::OPEN || self.last == layout::OPEN
    }

    // Refusals 5, 14, 7 and 11, in order, for a store that was opened.
    fn test(&self, rows: usize) -> Result<(), Refusal>
        ensures { WindowRefusal self.now rows result }
    {
        if self.is_open() {
            return Err(Refusal::TimeOpen);
        }
        if self.last < self.first {
            return Err(Refusal::Reversed);
        }
        if self.opened.head.cursor.clock < self.last {
            return Err(Refusal::Late);
        }
        if rows < layout::ROW_LEN * self.opened.head.settings.tags as usize {
            return Err(Refusal::ShortBuffer);
        }
        Ok(())
    }

    // The latest record of each tag is noted, then the rows are put; where a record is unsound, refusal 12 fills the buffer with zeros. (By `match`, as a
    // look-back's `answer`.)
    fn answer(&self, rows: &mut [u32]) -> Result<u32, Refusal>
        requires { LongRows self.now rows.old }
        ensures { Answers self.now rows.old result rows.new }
    {
        let mut best: Latest = [0; Settings::MOST_TAGS as usize];
        match self.note_blocks(&mut best) {
            Ok(()) => Ok(self.put_rows(&best, rows)),
            Err(Unsound) => {
                parts::zero_all(rows);
                Err(Refusal::Unsound)
            }
        }
    }
}

// What stood at some second from `first` to `last`, both included: how many rows are given. Refused for the first reason that applies, on any words.
pub fn window(store: &[u32], first: u32, last: u32, rows: &mut [u32]) -> Result<u32, Refusal>
    ensures { Windowed store.now first last rows.old result rows.new }
{
    let opened = queries::open(store)?;
    let span = Span {
        opened,
        first,
        last,
    };
    span.test(rows.len())?;
    span.answer(rows)
}
