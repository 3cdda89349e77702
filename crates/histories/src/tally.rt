// The totals, and how they are printed.
use model::answers::{Answers, Count};
use model::book::Book;
use std::fmt;

#[derive(Clone, Copy, Default)]
pub struct Tally {
    // The answers of the calls of histories.
    pub answers: Answers,
    // Accepted starts, changes and clock moves.
    pub accepted: Count,
    // Answered look-backs, the rows that they gave, and the blocks that they listed.
    pub look_backs: Count,
    pub rows: Count,
    pub listed: Count,
    // The blocks of books that ended.
    opened: Count,
    closed: Count,
    most_opened: u32,
    // The answers of the windows of histories, and the rows that they gave.
    pub windows: Answers,
    pub window_rows: Count,
    // The answers of calls, and of the windows among them, on damaged stores.
    pub damaged: Answers,
    pub damaged_windows: Answers,
}

// The answers of windows; what they are is said before each line, and what they were asked on behind the first.
#[derive(Clone, Copy)]
struct Windows<'a>(&'a Answers, &'static str, &'static str);

impl Tally {
    // Counts the blocks of a book that ends.
    pub(crate) fn count_blocks(&mut self, book: &Book) {
        self.opened += book.opened();
        self.closed += book.closed();
        self.most_opened = self.most_opened.max(book.opened());
    }
}

impl<'a> fmt::Display for Windows<'a> {
    fn fmt<W: fmt::Write>(&self, f: &mut fmt::Formatter<W>) -> fmt::Result {
        let Windows(answers, on, before) = *self;
        writeln!(f, "windows asked{on} {}", answers.all())?;
        writeln!(f, "{before}windows answered {}", answers.accepted())?;
        writeln!(f, "{before}windows, refusals 1 to 14:{}", answers.refused())
    }
}

impl fmt::Display for Tally {
    fn fmt<W: fmt::Write>(&self, f: &mut fmt::Formatter<W>) -> fmt::Result {
        writeln!(f, "calls {}", self.answers.all())?;
        writeln!(
            f,
            "accepted starts, changes and clock moves {}",
            self.accepted
        )?;
        writeln!(f, "look-backs answered {}", self.look_backs)?;
        writeln!(f, "rows compared {}", self.rows)?;
        writeln!(f, "blocks listed {}", self.listed)?;
        writeln!(f, "blocks opened {}", self.opened)?;
        writeln!(f, "blocks closed {}", self.closed)?;
        writeln!(f, "most blocks in a history {}", self.most_opened)?;
        write!(f, "{}", Windows(&self.windows, "", ""))?;
        writeln!(f, "window rows compared {}", self.window_rows)?;
        write!(
            f,
            "{}",
            Windows(&self.damaged_windows, " on damaged stores", "damaged, ")
        )?;
        for (number, count) in self.answers.counts().iter().enumerate().skip(1) {
            writeln!(f, "refusal {number}: {count}")?;
        }
        writeln!(f, "calls on damaged stores {}", self.damaged.all())?;
        for (number, count) in self.damaged.counts().iter().enumerate() {
            writeln!(f, "damaged, answer {number}: {count}")?;
        }
        Ok(())
    }
}
