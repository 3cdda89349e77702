// THE REGISTER FOR CALLERS IN C AND RUST: what the archive exports (include/register.h is its manual). Each export is the call of `register` of the
// same name, with the same clauses: a crate is a library or an archive, and `register` is a library, which `histories` calls too.
#![tactic(auto)]

ghost use Rattle.std.specs.Prelude.{◌≡◌, [], ◌∷◌};
ghost use Rattle.layout.specs.Settings.{settings_of};
ghost use Rattle.calls.specs.Calls.{Start, Set, Clear, Update, Advance, Window};
ghost use Rattle.calls.specs.Step.{step};
ghost use Rattle.register.specs.Exports.{Exported, ExportedLookBack, ExportedQuery, words_for, ExportedReplay};
ghost use Rattle.register.specs.Rebuilt.{Rebuilt};

#[unsafe(no_mangle)]
pub extern "C" fn register_start(
    store: &mut [u32],
    block: u32,
    useful: u32,
    blocks: u32,
    tags: u32,
) -> u32
    ensures { Exported (step store.old (Start (settings_of block useful blocks tags))) result
        store.new }
{
    register::register_start(store, block, useful, blocks, tags)
}

#[unsafe(no_mangle)]
pub extern "C" fn register_set(store: &mut [u32], second: u32, tag: u32, reading: u32) -> u32
    ensures { Exported (step store.old (Set second tag reading)) result store.new }
{
    register::register_set(store, second, tag, reading)
}

#[unsafe(no_mangle)]
pub extern "C" fn register_clear(store: &mut [u32], second: u32, tag: u32) -> u32
    ensures { Exported (step store.old (Clear second tag)) result store.new }
{
    register::register_clear(store, second, tag)
}

#[unsafe(no_mangle)]
pub extern "C" fn register_update(store: &mut [u32], second: u32, tag: u32, reading: u32) -> u32
    ensures { Exported (step store.old (Update second tag reading)) result store.new }
{
    register::register_update(store, second, tag, reading)
}

#[unsafe(no_mangle)]
pub extern "C" fn register_advance(store: &mut [u32], second: u32) -> u32
    ensures { Exported (step store.old (Advance second)) result store.new }
{
    register::register_advance(store, second)
}

#[unsafe(no_mangle)]
pub extern "C" fn register_look_back(
    store: &[u32],
    second: u32,
    rows: &mut [u32],
    list: &mut [u32],
    answer: &mut [u32; 6],
) -> u32
    ensures { ExportedLookBack store.now second rows.old
        list.old answer.old result rows.new list.new answer.new }
{
    register::register_look_back(store, second, rows, list, answer)
}

#[unsafe(no_mangle)]
pub extern "C" fn register_window(
    store: &[u32],
    first: u32,
    last: u32,
    rows: &mut [u32],
    answer: &mut [u32; 1],
) -> u32
    ensures { ExportedQuery store.now (Window first last rows.old)
        answer.old result (rows.new ∷ []) answer.new }
{
    register::register_window(store, first, last, rows, answer)
}

// The words that a store with these settings takes; 0 for settings that a start refuses.
#[unsafe(no_mangle)]
pub extern "C" fn register_words(block: u32, useful: u32, blocks: u32, tags: u32) -> usize
    ensures { result ≡ words_for (settings_of block useful blocks tags) }
{
    register::register_words(block, useful, blocks, tags)
}

// A store rebuilt from a journal: the entries read, and how many of these were accepted.
#[unsafe(no_mangle)]
pub extern "C" fn register_replay(store: &mut [u32], journal: &[u32], answer: &mut [u64; 2])
    ensures exported_replay { ExportedReplay store.old
        journal.now answer.old store.new answer.new }
    ensures rebuilt { Rebuilt store.old journal.now store.new }
{
    register::register_replay(store, journal, answer);
}
