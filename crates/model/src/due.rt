// What the papers have a call answer after an honest history: it is accepted, or turned away for the first refusal of their list that applies.
// Unsound never does.
use crate::asked::{Action, Change, LookBack, Window};
use crate::finding::unless;
use crate::history::History;
use crate::refusal::{Answer, Refusal};
use crate::settings::Settings;
use crate::words::OPEN;

const HEAD_WORDS: usize = 16;

pub fn start(settings: Settings, length: usize) -> Answer {
    unless(settings.within(), Refusal::Settings)?;
    unless(HEAD_WORDS <= length, Refusal::ShortHead)?;
    unless(settings.layout() <= length, Refusal::ShortStore)
}

// What every call but a start is refused for first. Before the first start the store has no mark.
fn on_store(history: &History, length: usize, second: u32) -> Answer {
    unless(HEAD_WORDS <= length, Refusal::ShortHead)?;
    unless(history.started, Refusal::Head)?;
    unless(history.settings().layout() <= length, Refusal::ShortStore)?;
    unless(second != OPEN, Refusal::TimeOpen)
}

// Whether a tag stands, if it is one of the register's. All changes of the log are made by this second, so that the state is the state so far.
fn stands(history: &History, tag: u32, second: u32) -> Result<bool, Refusal> {
    unless(tag < history.settings().tags, Refusal::Tag)?;
    Ok(history.log.state_at(tag, second).is_some())
}

// Where nothing else is due, the book takes the change, unless the blocks run out. A clock move has no tag, and leaves the book.
pub fn change(history: &mut History, c: Change) -> Answer {
    on_store(history, c.length, c.second)?;
    unless(history.clock <= c.second, Refusal::Early)?;
    match c.action {
        Action::Set { tag, .. } => unless(!stands(history, tag, c.second)?, Refusal::Standing)?,
        Action::Clear { tag } | Action::Update { tag, .. } => {
            unless(stands(history, tag, c.second)?, Refusal::NotStanding)?
        }
        Action::Advance => return Ok(()),
    }
    history.book.take(c.second, c.action)
}

pub fn look_back(history: &History, a: LookBack) -> Answer {
    let s = history.settings();
    on_store(history, a.length, a.second)?;
    unless(a.second <= history.clock, Refusal::Late)?;
    let fits = s.row_words() <= a.row_words && s.blocks as usize <= a.list_words;
    unless(fits, Refusal::ShortBuffer)
}

// "14, t2 before t1, after refusal 5, which both times must pass; refusal 7 looks at t2"
pub fn window(history: &History, a: Window) -> Answer {
    // OPEN is the greatest word: the later of the two is OPEN if one is.
    on_store(history, a.length, a.first.max(a.last))?;
    unless(a.first <= a.last, Refusal::Reversed)?;
    unless(a.last <= history.clock, Refusal::Late)?;
    unless(
        history.settings().row_words() <= a.row_words,
        Refusal::ShortBuffer,
    )
}
