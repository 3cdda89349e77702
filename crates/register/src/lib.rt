// THE REGISTER, the public face: any of the six calls as one value (apply), a store rebuilt from a journal (replay), and by numbers the six
// calls and the window, each proved equal to its definition (calls.specs.Step), the replay, and how many words a store takes. `register_c` exports
// these last ones to C and Rust. (Numbers and arrays that are filled stay here, 0 for what is accepted or for no words and OPEN for no page: C has no
// other form, and include/register.h promises these.)
#![tactic(auto)]

mod journal;

ghost use Rattle.std.specs.Prelude.{◌≡◌, [], ◌∷◌};
ghost use Rattle.std.proofs.lemmas.List.Edits.{sets};
ghost use Rattle.layout.specs.Settings.{settings_of};
ghost use Rattle.calls.specs.Calls.{Start, Set, Clear, Update, Advance, Window};
ghost use Rattle.calls.specs.Step.{step};
ghost use Rattle.register.specs.Exports.{six_words, Exported, ExportedLookBack, ExportedQuery, words_for, ExportedReplay};
ghost use Rattle.register.specs.Rebuilt.{Rebuilt};

pub use applying::{Answer, Call, apply};
pub use journal::{Tally, replay};
use layout::refusal::number_of;
use layout::settings::Settings;
use timeslice::Slice;

pub fn register_start(store: &mut [u32], block: u32, useful: u32, blocks: u32, tags: u32) -> u32
    ensures { Exported (step store.old (Start (settings_of block useful blocks tags))) result
        store.new }
{
    number_of(changes::start(store, Settings::asked(block, useful, blocks, tags)))
}

pub fn register_set(store: &mut [u32], second: u32, tag: u32, reading: u32) -> u32
    ensures { Exported (step store.old (Set second tag reading)) result store.new }
{
    number_of(changes::set(store, second, tag, reading))
}

pub fn register_clear(store: &mut [u32], second: u32, tag: u32) -> u32
    ensures { Exported (step store.old (Clear second tag)) result store.new }
{
    number_of(changes::clear(store, second, tag))
}

pub fn register_update(store: &mut [u32], second: u32, tag: u32, reading: u32) -> u32
    ensures { Exported (step store.old (Update second tag reading)) result store.new }
{
    number_of(changes::update(store, second, tag, reading))
}

pub fn register_advance(store: &mut [u32], second: u32) -> u32
    ensures { Exported (step store.old (Advance second)) result store.new }
{
    number_of(changes::advance(store, second))
}

// The six words of an answered look-back: rows, pages read, blocks listed, and the page passed on each of the three levels, OPEN for none.
fn put_six(answer: &mut [u32; 6], slice: Slice)
    ensures { answer.new ≡ sets answer.old 0 (six_words slice) }
{
    answer[0] = slice.counts.rows;
    answer[1] = slice.counts.pages;
    answer[2] = slice.counts.blocks;
    let [page0, page1, page2] = slice.pages;
    answer[3] = page0.unwrap_or(layout::OPEN);
    answer[4] = page1.unwrap_or(layout::OPEN);
    answer[5] = page2.unwrap_or(layout::OPEN);
}

pub fn register_look_back(
    store: &[u32],
    second: u32,
    rows: &mut [u32],
    list: &mut [u32],
    answer: &mut [u32; 6],
) -> u32
    ensures { ExportedLookBack store.now second rows.old
        list.old answer.old result rows.new list.new answer.new }
{
    match timeslice::look_back(store, second, rows, list) {
        Ok(slice) => {
            put_six(answer, slice);
            0
        }
        Err(refusal) => refusal.number(),
    }
}

pub fn register_window(
    store: &[u32],
    first: u32,
    last: u32,
    rows: &mut [u32],
    answer: &mut [u32; 1],
) -> u32
    ensures { ExportedQuery store.now (Window first last rows.old)
        answer.old result (rows.new ∷ []) answer.new }
{
    match window::window(store, first, last, rows) {
        Ok(given) => {
            answer[0] = given;
            0
        }
        Err(refusal) => refusal.number(),
    }
}

// The words that a store with these settings takes; 0 for settings that a start refuses.
pub fn register_words(block: u32, useful: u32, blocks: u32, tags: u32) -> usize
    ensures { result ≡ words_for (settings_of block useful blocks tags) }
{
    let asked = Settings::asked(block, useful, blocks, tags);
    if asked.within() {
        return asked.words();
    }
    0
}

// A store rebuilt from a journal: the entries read, and how many of these were accepted.
pub fn register_replay(store: &mut [u32], journal: &[u32], answer: &mut [u64; 2])
    ensures exported_replay { ExportedReplay store.old
        journal.now answer.old store.new answer.new }
    ensures rebuilt { Rebuilt store.old journal.now store.new }
{
    let tally = replay(store, journal);
    answer[0] = tally.entries as u64;
    answer[1] = tally.accepted as u64;
}
