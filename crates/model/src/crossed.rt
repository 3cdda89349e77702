// What a window left, against the log.
use crate::asked::Window;
use crate::finding::{Finding, unless};
use crate::found::Found;
use crate::history::History;
use crate::refusal::Answer;
use crate::settings::ROW_WORDS;

// The answer has one word: how many rows.
pub type Crossed = Found<1>;

impl Crossed {
    // What a window left, on any words: if it was answered, the words after its rows, which fit the buffer. A refused one has left what refused
    // queries leave.
    pub fn left(&self, a: Window, answer: Answer) -> Result<(), Finding> {
        match answer {
            Ok(()) => {
                unless(self.row_words() <= a.row_words, Finding::WindowCounts)?;
                unless(self.is_left_after(), Finding::WindowBuffer)
            }
            Err(refusal) => {
                unless(
                    self.is_left_by(refusal, a.row_words),
                    Finding::WindowTouched,
                )
            }
        }
    }

    // The same after an honest history, where the rows are the log's: "each tag that stood at some second of the window, once, with the reading
    // of its latest standing there, in ascending tag order".
    pub fn agrees(&self, history: &History, a: Window, answer: Answer) -> Result<(), Finding> {
        self.left(a, answer)?;
        if answer.is_err() {
            return Ok(());
        }
        let due = history.log.window(history.settings().tags, a.first, a.last);
        unless(
            due.len() == self.row_count() as usize,
            Finding::WindowCounts,
        )?;
        let mut rows = self.rows.chunks_exact(ROW_WORDS).zip(&due);
        let named = rows.all(|(words, row)| words == row.words().as_slice());
        unless(named, Finding::WindowBuffer)
    }
}
