// What is asked of the register, as it is drawn.
ghost use Rattle.std.specs.Prelude.{◌≡◌};
ghost use Rattle.model.specs.Asked.{tag_of};

// The kinds of changes: an update is a new reading, an advance a clock move. (An `Action` has them too: a kind is drawn before what it takes.)
#[derive(Clone, Copy, Default, PartialEq, Eq)]
pub enum Kind {
    #[default]
    Set,
    Clear,
    Update,
    Advance,
}

// The kinds of calls.
#[derive(Clone, Copy, PartialEq, Eq)]
pub enum Call {
    Start,
    Change(Kind),
    LookBack,
    Window,
}

// What a change does. (Three programs match it for calls of their own: a trait of such calls would have an impl as long as each match.)
#[derive(Clone, Copy)]
pub enum Action {
    Set { tag: u32, reading: u32 },
    Clear { tag: u32 },
    Update { tag: u32, reading: u32 },
    Advance,
}

// A change, with the number of words that are lent.
#[derive(Clone, Copy)]
pub struct Change {
    pub length: usize,
    pub second: u32,
    pub action: Action,
}

// A look-back, with the numbers of words that are lent: of the store, for rows, and for the list.
#[derive(Clone, Copy)]
pub struct LookBack {
    pub length: usize,
    pub second: u32,
    pub row_words: usize,
    pub list_words: usize,
}

// A window from a first to a last second, with the numbers of words that are lent: of the store, and for rows.
#[derive(Clone, Copy)]
pub struct Window {
    pub length: usize,
    pub first: u32,
    pub last: u32,
    pub row_words: usize,
}

impl Action {
    // Of what was drawn, what its kind takes.
    pub fn of(kind: Kind, tag: u32, reading: u32) -> Action {
        match kind {
            Kind::Set => Action::Set { tag, reading },
            Kind::Clear => Action::Clear { tag },
            Kind::Update => Action::Update { tag, reading },
            Kind::Advance => Action::Advance,
        }
    }

    // A clock move has no tag.
    pub fn tag(self) -> Option<u32>
        ensures { result ≡ tag_of self }
    {
        match self {
            Action::Set { tag, .. } | Action::Clear { tag } | Action::Update { tag, .. } => Some(
                tag,
            ),
            Action::Advance => None,
        }
    }
}
