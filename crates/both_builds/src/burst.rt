// Calls come in bursts of mostly one kind, at most as many as a block has records: so blocks fill, and then close with many records.
use model::asked::{Action, Change, Kind};
use model::draw;
use model::history::History;

// (By default none has begun.)
#[derive(Clone, Copy, Default)]
pub struct Burst {
    kind: Kind,
    // How many calls are left of it.
    left: u32,
    // The tag of all its new readings, if they have one.
    tag: Option<u32>,
}

impl Burst {
    // One of two bursts of new readings is of one tag: the last block fills, and all others stay as they are.
    fn begin(history: &mut History) -> Burst {
        let kind = match history.random.below(8) {
            0..=3 => Kind::Set,
            4..=5 => Kind::Clear,
            _ => Kind::Update,
        };
        let drawn = draw::change(history, Kind::Update);
        let of_one = history.random.once_in(2) && kind == Kind::Update;
        let block = history.settings().block;
        Burst {
            kind,
            left: history.random.below(block).saturating_add(1),
            tag: drawn.action.tag().filter(|_| of_one),
        }
    }

    // One call of a burst is made, which is mostly of this kind; after the last call another burst begins.
    pub(crate) fn next(&mut self, history: &mut History) -> Kind {
        if self.left == 0 {
            *self = Burst::begin(history);
        }
        self.left = self.left.saturating_sub(1);
        self.kind
    }

    // A change with the burst's tag, if it is a new reading and the burst has one.
    pub(crate) fn with_tag(self, c: Change) -> Change {
        match (c.action, self.tag) {
            (Action::Update { reading, .. }, Some(tag)) => Change {
                action: Action::Update { tag, reading },
                ..c
            },
            _ => c,
        }
    }
}
