// The plain log: the accepted sets, clears and new readings of the present history in order. The state at a second is what the log comes to,
// played up to it.
use crate::asked::Action;
use arrayvec::ArrayVec;

// A long history has 2,003 calls at most, and a short one fewer.
const MOST: usize = 2304;

// What a set, a clear or a new reading left: a reading, or after a clear none.
#[derive(Clone, Copy, Default)]
struct Entry {
    second: u32,
    tag: u32,
    reading: Option<u32>,
}

// A tag that stands, since the second of its last set or new reading.
#[derive(Clone, Copy, PartialEq, Eq, Default)]
pub struct Row {
    pub tag: u32,
    pub reading: u32,
    pub since: u32,
}

// One row for each tag that stands.
pub type Rows = ArrayVec<Row, 64>;

#[derive(Drop)]
pub struct Log {
    entries: ArrayVec<Entry, MOST>,
}

impl Row {
    // Its words in a row buffer.
    pub(crate) fn words(self) -> [u32; 3] {
        [self.tag, self.reading, self.since]
    }
}

impl Entry {
    // What stands after it.
    fn row(self) -> Option<Row> {
        self.reading.map(|reading| Row {
            tag: self.tag,
            reading,
            since: self.second,
        })
    }

    // It is of this tag, and was made by t.
    fn concerns(self, tag: u32, t: u32) -> bool {
        self.tag == tag && self.second <= t
    }
}

impl Log {
    pub(crate) fn new() -> Log {
        Log {
            entries: ArrayVec::new(),
        }
    }

    // Enters an accepted change; a clock move leaves no entry.
    pub fn enter(&mut self, second: u32, action: Action) {
        let (tag, reading) = match action {
            Action::Set { tag, reading } | Action::Update { tag, reading } => (tag, Some(reading)),
            Action::Clear { tag } => (tag, None),
            Action::Advance => return,
        };
        if !self.entries.is_full() {
            self.entries.push(Entry {
                second,
                tag,
                reading,
            });
        }
    }

    // How many sets and new readings there are.
    pub(crate) fn sets(&self) -> usize {
        self.entries
            .iter()
            .filter(|entry| entry.reading.is_some())
            .count()
    }

    // The state at t, of one tag.
    pub fn state_at(&self, tag: u32, t: u32) -> Option<Row> {
        let made = self
            .entries
            .iter()
            .rev()
            .find(|entry| entry.concerns(tag, t));
        made.and_then(|entry| entry.row())
    }

    // The latest standing of one tag in a window, if the tag stood at some second of it.
    pub fn latest_in(&self, tag: u32, first: u32, last: u32) -> Option<Row> {
        let mut left: Option<Row> = None;
        let mut latest = None;
        let made = self
            .entries
            .iter()
            .filter(|entry| entry.concerns(tag, last));
        for entry in made {
            // What stood until this change stood in the window if it stood at all from `first` on.
            if left.is_some_and(|row| row.since < entry.second && first < entry.second) {
                latest = left;
            }
            left = entry.row();
        }
        left.or(latest)
    }

    // The state at t, by tag.
    pub(crate) fn state(&self, tags: u32, t: u32) -> Rows {
        rows(tags, |tag| self.state_at(tag, t))
    }

    // The same of a window.
    pub fn window(&self, tags: u32, first: u32, last: u32) -> Rows {
        rows(tags, |tag| self.latest_in(tag, first, last))
    }
}

// The rows of the tags that have one, as many as there is room for.
fn rows<F: Fn(u32) -> Option<Row>>(tags: u32, row_of: F) -> Rows
    requires pre { (f : _) (a : _) → F.FnMut.pre f a }
{
    let mut rows = Rows::new();
    let _ = rows.extend((0..tags).filter_map(row_of));
    rows
}
