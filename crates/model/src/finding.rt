// What does not agree, with the number that is printed.
use std::fmt;

#[derive(Clone, Copy, PartialEq, Eq)]
pub enum Finding {
    // An answer that is not the one due.
    NotDue = 1,
    // What a refused call changed, and what an accepted one changed beyond the layout or left in it.
    RefusedWrote = 2,
    Beyond = 3,
    // The store, against book and log (agree.rt).
    Head = 4,
    Seconds = 5,
    Placed = 6,
    Bound = 7,
    Slot = 8,
    Directory = 9,
    // What a look-back left (looked.rt).
    Counts = 10,
    Row = 11,
    NotListed = 12,
    Twice = 13,
    Useful = 14,
    Pages = 15,
    After = 16,
    Touched = 17,
    // On a damaged store: an answer that no words may bring about, and words that a call had to leave.
    Never = 20,
    Wrote = 21,
    // What a window left (crossed.rt).
    WindowCounts = 30,
    WindowBuffer = 31,
    WindowTouched = 32,
}

impl fmt::Display for Finding {
    fn fmt<W: fmt::Write>(&self, f: &mut fmt::Formatter<W>) -> fmt::Result {
        write!(f, "{}", *self as u32)
    }
}

// Nothing, or what does not hold: of a finding or a refusal.
pub fn unless<E: Drop>(holds: bool, what: E) -> Result<(), E> {
    if holds { Ok(()) } else { Err(what) }
}
