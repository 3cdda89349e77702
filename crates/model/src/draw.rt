// Random arguments: mostly sensible, sometimes such as a refusal is for.
use crate::asked::{Action, Change, Kind, LookBack, Window};
use crate::history::History;
use crate::random::Random;
use crate::settings::{LISTED, Settings};
use crate::words::OPEN;

// Where a late history goes with its first change: some 90 seconds before the last.
const LATE_SECOND: u32 = 4294967200;

// How many words of the store are lent: all that the history has, and now and then too few.
pub fn length(history: &mut History) -> usize {
    match history.random.below(160) {
        0 => 0,
        1 => 15,
        2 => 16,
        3 => history.settings().layout().saturating_sub(1),
        _ => history.length,
    }
}

// The second of a change: from the clock on, sometimes before it, sometimes OPEN, as is what would be past the last second. The first of a late
// history is late.
fn second(history: &mut History) -> u32 {
    let clock = history.clock;
    if clock == 0 && history.late {
        return LATE_SECOND;
    }
    match history.random.below(40) {
        0 => OPEN,
        1 => clock.saturating_sub(history.random.below(5) + 1),
        2..=19 => clock,
        20..=35 => clock.saturating_add(1),
        _ => clock.saturating_add(history.random.below(20)),
    }
}

// A second to look back at: any up to the clock, often a late one, sometimes one after the clock, sometimes OPEN.
pub fn past(history: &mut History) -> u32 {
    let clock = history.clock;
    let next = clock.saturating_add(1);
    match history.random.below(24) {
        0 => OPEN,
        1 => next,
        2..=4 => clock,
        5..=11 => clock.saturating_sub(history.random.below(90)),
        _ => history.random.below(next),
    }
}

// A tag that fits the kind of change, for three calls in four: one that does not stand for a set, one that stands for any other, the next such
// from a drawn one on, round the end. Sometimes none of the register's.
fn tag(history: &mut History, kind: Kind) -> u32 {
    let tags = history.settings().tags;
    if history.random.once_in(30) {
        return tags.saturating_add(history.random.below(3));
    }
    let first = history.random.below(tags);
    if history.random.once_in(4) {
        return first;
    }
    let book = &history.book;
    let mut round = (first..tags).chain(0..first);
    let fitting = round.find(|tag| book.place_of(*tag).is_none() == (kind == Kind::Set));
    fitting.unwrap_or(first)
}

// Length of a lent buffer: enough, to spare, or one too few.
fn buffer(random: &mut Random, enough: usize) -> usize {
    match random.below(20) {
        0 => enough.saturating_sub(1),
        more @ 1..=4 => enough.saturating_add(more as usize),
        _ => enough,
    }
}

// Settings for a start within a history: listed ones, or now and then bad ones; in a long history bad ones only, so that it goes on.
pub fn settings(history: &mut History) -> Settings {
    let bad = Settings::bad(history.random.below(12));
    if history.settings().is_long() || history.random.once_in(3) {
        return bad;
    }
    Settings::listed(history.random.below(LISTED))
}

// Any settings within the limits, but that book and store have room for 30 blocks and 60 tags.
pub fn any_settings(random: &mut Random) -> Settings {
    let block = random.below(63) + 2;
    let useful = random.below(block / 2) + 1;
    let blocks = random.below(28) + 3;
    let tags = random.below(57) + 4;
    Settings::new(block, useful, blocks, tags)
}

pub fn change(history: &mut History, kind: Kind) -> Change {
    let length = length(history);
    let second = second(history);
    let tag = tag(history, kind);
    let reading = history.random.word();
    Change {
        length,
        second,
        action: Action::of(kind, tag, reading),
    }
}

// A look-back at a second, with buffers for D rows and B blocks.
pub fn look_back_at(history: &mut History, length: usize, second: u32) -> LookBack {
    let s = history.settings();
    let row_words = buffer(&mut history.random, s.row_words());
    let list_words = buffer(&mut history.random, s.blocks as usize);
    LookBack {
        length,
        second,
        row_words,
        list_words,
    }
}

pub fn look_back(history: &mut History) -> LookBack {
    let length = length(history);
    let second = past(history);
    look_back_at(history, length, second)
}

// The first second of a window with this last one: the same, one shortly or long before it, the history's beginning; sometimes one after it,
// sometimes any.
fn first_of(history: &mut History, last: u32) -> u32 {
    match history.random.below(16) {
        0..=2 => last,
        3..=7 => last.saturating_sub(history.random.below(8)),
        8..=11 => last.saturating_sub(history.random.below(90)),
        12..=13 => 0,
        14 => last.wrapping_add(history.random.below(3) + 1),
        _ => past(history),
    }
}

// A window that ends at a second, with a buffer for D rows.
pub fn window_to(history: &mut History, length: usize, last: u32) -> Window {
    let first = first_of(history, last);
    let enough = history.settings().row_words();
    let row_words = buffer(&mut history.random, enough);
    Window {
        length,
        first,
        last,
        row_words,
    }
}

pub fn window(history: &mut History) -> Window {
    let length = length(history);
    let last = past(history);
    window_to(history, length, last)
}
