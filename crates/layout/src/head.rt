// The head of the store as one value: read with its refusals, written, and moved on. A change takes the head, and each of the methods `at`, `filled`,
// `grown` and `relinked` answers the next one.
ghost use Rattle.std.specs.Prelude.{◌≡◌, ◌≤◌, ◌<◌, length, IfOk};
ghost use Rattle.layout.specs.Sizes.{head_len, layout_len};
ghost use Rattle.layout.specs.Settings.{Within};
ghost use Rattle.layout.specs.RefusalNumbers.{refused};
ghost use Rattle.layout.specs.Head.{fresh_head, onward, head_of, with_head, cleared, fill_fits, spare_zero, bad_head, head_refusal, placed};
ghost use Rattle.layout.specs.HeadLaws.{SoundHead, HeadRead};
ghost use Rattle.layout.specs.Cursor.{at, filled, grown, relinked, store_cursor};
ghost use Rattle.layout.specs.Ran.{Ran};
ghost use Rattle.layout.specs.OnWords.{over, Held};

use crate::address::Address;
use crate::refusal::Refusal;
use crate::settings::Settings;
use crate::{address, fields, parts, sizes};

// The part of the head that moves on: what is not settings.
#[derive(Clone, Copy, Debug, Default, PartialEq, Eq)]
pub struct Cursor {
    // N: blocks opened; block N is the acceptor
    pub opened: u32,
    // the second of the last accepted change or clock move
    pub clock: u32,
    // records in block N
    pub fill: u32,
    // last child of block 0
    pub child: u32,
    // right of block 0
    pub right: u32,
}

#[derive(Clone, Copy, Debug, PartialEq, Eq)]
pub struct Head {
    pub settings: Settings,
    pub cursor: Cursor,
}

impl Head {
    // The head that a start leaves: no block is opened, and the clock is 0.
    pub fn fresh(settings: Settings) -> Head
        ensures { result ≡ fresh_head settings }
    {
        Head {
            settings,
            cursor: Cursor::default(),
        }
    }

    // The next head: the settings stay, the cursor moves on.
    pub fn onward(self, cursor: Cursor) -> Head
        ensures { result ≡ onward self cursor }
    {
        Head { cursor, ..self }
    }

    // The next head, its clock at `second`.
    pub fn at(self, second: u32) -> Head
        ensures { result ≡ onward self (at second self.cursor) }
    {
        self.onward(Cursor {
            clock: second,
            ..self.cursor
        })
    }

    // The next head, with one record more in the acceptor.
    pub fn filled(self) -> Head
        requires { self.cursor.fill < 64 }
        ensures { result ≡ onward self (filled self.cursor) }
    {
        self.onward(Cursor {
            fill: self.cursor.fill + 1,
            ..self.cursor
        })
    }

    // The next head, with one block more, empty; `right` is right of block 0.
    pub fn grown(self, right: u32) -> Head
        requires { self.cursor.opened < 4096 }
        ensures { result ≡ onward self (grown right self.cursor) }
    {
        self.onward(Cursor {
            opened: self.cursor.opened + 1,
            fill: 0,
            right,
            ..self.cursor
        })
    }

    // The next head, with block 0's last child and right.
    pub fn relinked(self, child: u32, right: u32) -> Head
        ensures { result ≡ onward self (relinked child right self.cursor) }
    {
        self.onward(Cursor {
            child,
            right,
            ..self.cursor
        })
    }

    // Records placed so far: every block before the acceptor is full.
    pub fn placed(self) -> u32
        requires { SoundHead self }
        ensures { result ≡ placed self }
    {
        if self.cursor.opened == 0 {
            return 0;
        }
        (self.cursor.opened - 1) * self.settings.block + self.cursor.fill
    }

    // Records in the acceptor: 1 to b, and 0 where no block is opened.
    fn fill_fits(self) -> bool
        ensures { result ≡ fill_fits self }
    {
        if self.cursor.opened == 0 {
            return self.cursor.fill == 0;
        }
        1 <= self.cursor.fill && self.cursor.fill <= self.settings.block
    }
}

// Words that are long enough for a head, right or wrong.
#[derive(Clone, Copy)]
pub struct HeadWords<'a> {
    pub words: &'a [u32],
    pub ghost long: { head_len ≤ length words.now },
}

impl HeadWords<'_> {
    // The head that they hold.
    pub fn head(&self) -> Head
        ensures { result ≡ head_of self.now.words.now }
    {
        let words = self.words;
        let settings = Settings {
            block: words[fields::HEAD_BLOCK],
            useful: words[fields::HEAD_USEFUL],
            blocks: words[fields::HEAD_BLOCKS],
            tags: words[fields::HEAD_TAGS],
        };
        let cursor = Cursor {
            opened: words[fields::HEAD_OPENED],
            clock: words[fields::HEAD_CLOCK],
            fill: words[fields::HEAD_FILL],
            child: words[fields::HEAD_CHILD],
            right: words[fields::HEAD_RIGHT],
        };
        Head { settings, cursor }
    }

    // The last six words are zero.
    fn spare_zero(&self) -> bool
        ensures { result ≡ spare_zero self.now.words.now }
    {
        let spare = &self.words[fields::HEAD_SPARE..sizes::HEAD_LEN];
        spare.iter().all(|&word| word == 0)
    }

    // Refusal 3: no start and no change left them.
    fn bad_head(&self) -> bool
        ensures { result ≡ bad_head self.now.words.now }
    {
        if self.words[fields::HEAD_MARK] != sizes::MARK {
            return true;
        }
        let h = self.head();
        if !h.settings.within() {
            return true;
        }
        if h.settings.blocks < h.cursor.opened {
            return true;
        }
        if h.cursor.clock == sizes::OPEN {
            return true;
        }
        if !self.spare_zero() {
            return true;
        }
        !h.fill_fits()
    }
}

// The head that the words hold. A store that has none is refused, and so is a bad head.
pub fn read_head(store: &[u32]) -> Result<Head, Refusal>
    ensures refusal { refused result ≡ head_refusal store.now }
    ensures head { IfOk result (HeadRead store.now) }
{
    if store.len() < sizes::HEAD_LEN {
        return Err(Refusal::ShortHead);
    }
    let words = HeadWords { words: store };
    if words.bad_head() {
        return Err(Refusal::Head);
    }
    Ok(words.head())
}

// All 16 words, the last six as zeros.
pub fn write_head(store: &mut [u32], h: Head)
    requires { head_len ≤ length store.old }
    ensures { store.new ≡ with_head h store.old }
{
    let words = &mut store[..sizes::HEAD_LEN];
    parts::zero_all(words);
    words[fields::HEAD_MARK] = sizes::MARK;
    words[fields::HEAD_BLOCK] = h.settings.block;
    words[fields::HEAD_USEFUL] = h.settings.useful;
    words[fields::HEAD_BLOCKS] = h.settings.blocks;
    words[fields::HEAD_TAGS] = h.settings.tags;
    words[fields::HEAD_OPENED] = h.cursor.opened;
    words[fields::HEAD_CLOCK] = h.cursor.clock;
    words[fields::HEAD_FILL] = h.cursor.fill;
    words[fields::HEAD_CHILD] = h.cursor.child;
    words[fields::HEAD_RIGHT] = h.cursor.right;
}

// The words that a change moves on; the settings are never written again.
pub fn write_cursor(store: &mut [u32], h: Head)
    requires { Held h.settings store.old }
    ensures { Ran (over h.settings) (store_cursor h.cursor) store.old tt store.new }
{
    let s = h.settings;
    let c = h.cursor;
    address::write(store, s, Address::Head(fields::HEAD_OPENED), c.opened);
    address::write(store, s, Address::Head(fields::HEAD_CLOCK), c.clock);
    address::write(store, s, Address::Head(fields::HEAD_FILL), c.fill);
    address::write(store, s, Address::Head(fields::HEAD_CHILD), c.child);
    address::write(store, s, Address::Head(fields::HEAD_RIGHT), c.right);
}

// The layout filled with zeros; words beyond it are untouched.
pub fn clear_layout(store: &mut [u32], s: Settings)
    requires within { Within s }
    requires s_in_bounds { layout_len s ≤ length store.old }
    ensures { store.new ≡ cleared s store.old }
{
    parts::zero_part(store, 0, s.words());
}
