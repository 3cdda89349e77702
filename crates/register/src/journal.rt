// A JOURNAL OF CHANGES, from which a store is rebuilt. Six words an entry: its kind and five numbers, of which a kind uses the first ones.
// An entry of no kind ends the journal (0 is none, so that a zeroed tail is no entry), and so does one that is cut short.
ghost use Rattle.std.specs.Prelude.{◌≡◌, length};
ghost use Rattle.register.specs.Journal.{entry_of, entry_at, Plays, Replayed};
ghost use Rattle.register.specs.Rebuilt.{Rebuilt};

const ENTRY: usize = 6;

// The kinds, as numbers: they are words that a caller in C writes, and `play` matches on them once.
// b, q, B, D
const START: u32 = 1;

// second, tag, reading
const SET: u32 = 2;

// second, tag
const CLEAR: u32 = 3;

// second, tag, new reading
const UPDATE: u32 = 4;

// second
const ADVANCE: u32 = 5;

// What a replay did: the entries that it read, and how many of these were accepted.
#[derive(Clone, Copy)]
pub struct Tally {
    pub entries: usize,
    pub accepted: usize,
}

// One entry, by the calls that are exported: whether it was accepted, which the number 0 says; none for an entry of no kind, which ends the journal.
// (A change that had another caller beside its call by numbers would no longer be compiled into it. `apply` is not in the archive.)
fn play(store: &mut [u32], kind: u32, a: u32, b: u32, c: u32, d: u32) -> Option<bool>
    ensures { Plays store.old (entry_of kind a b c d) result store.new }
{
    match kind {
        START => Some(crate::register_start(store, a, b, c, d) == 0),
        SET => Some(crate::register_set(store, a, b, c) == 0),
        CLEAR => Some(crate::register_clear(store, a, b) == 0),
        UPDATE => Some(crate::register_update(store, a, b, c) == 0),
        ADVANCE => Some(crate::register_advance(store, a) == 0),
        _ => None,
    }
}

// The entry of these six words.
fn play_words(store: &mut [u32], entry: &[u32]) -> Option<bool>
    requires { length entry.now ≡ 6 }
    ensures { Plays store.old (entry_at entry.now 0) result store.new }
{
    play(store, entry[0], entry[1], entry[2], entry[3], entry[4])
}

// All entries in order, refused ones too, each on the store as the one before left it.
pub fn replay(store: &mut [u32], journal: &[u32]) -> Tally
    ensures replayed { Replayed store.old journal.now result store.new }
    ensures rebuilt { Rebuilt store.old journal.now store.new }
{
    let mut entries = 0;
    let mut accepted = 0;
    for entry in journal.chunks_exact(ENTRY) {
        let Some(is_accepted) = play_words(store, entry) else {
            return Tally { entries, accepted };
        };
        entries += 1;
        accepted += usize::from(is_accepted);
    }
    Tally { entries, accepted }
}
