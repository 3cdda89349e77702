// Calls on damaged stores. Whatever the words are, a call is accepted or turned away with a refusal that it can meet, and a refused one leaves
// what the papers say.
use crate::called;
use crate::run::Run;
use model::asked::{Call, Kind};
use model::finding::{Finding, unless};
use model::refusal::{Answer, Called, Refusal};
use model::store::{AFTER_SETTINGS, settings};
use model::{damage, draw};

const ROUNDS: u32 = 3;

// The calls of a round: each kind of call, look-backs, windows and clears oftener, and last a start.
const ROUND: [Call; 13] = [
    Call::LookBack,
    Call::Window,
    Call::Change(Kind::Set),
    Call::LookBack,
    Call::Change(Kind::Clear),
    Call::Change(Kind::Update),
    Call::LookBack,
    Call::Change(Kind::Clear),
    Call::Change(Kind::Advance),
    Call::Change(Kind::Set),
    Call::Window,
    Call::LookBack,
    Call::Start,
];

// A call may be turned away so, on some words. A start may not: what stands in the store does not matter to it.
fn may(call: Call, refusal: Refusal) -> bool {
    match refusal {
        Refusal::ShortHead | Refusal::Head | Refusal::ShortStore | Refusal::TimeOpen => call
            != Call::Start,
        Refusal::Early => matches!(call, Call::Change(_)),
        Refusal::Late | Refusal::ShortBuffer => matches!(call, Call::LookBack | Call::Window),
        Refusal::Tag | Refusal::OutOfBlocks => {
            matches!(call, Call::Change(Kind::Set | Kind::Clear | Kind::Update))
        }
        Refusal::Standing => call == Call::Change(Kind::Set),
        Refusal::NotStanding => matches!(call, Call::Change(Kind::Clear | Kind::Update)),
        Refusal::Unsound => !matches!(call, Call::Start | Call::Change(Kind::Advance)),
        Refusal::Reversed => call == Call::Window,
        Refusal::Settings => false,
    }
}

impl<'a> Run<'a> {
    // The rounds after a history: each damages the store that it left.
    pub fn rounds(&mut self) {
        self.store.end();
        for _ in 0..ROUNDS {
            damage::damage(self.store, &mut self.history);
            for call in ROUND {
                self.notes.begin_call();
                if let Err(what) = self.damaged(call) {
                    self.notes.note(what);
                }
                self.store.keep();
            }
        }
    }

    fn damaged(&mut self, call: Call) -> Result<(), Finding> {
        match call {
            Call::Start => self.damaged_start(),
            Call::Change(kind) => self.damaged_change(kind),
            Call::LookBack => self.damaged_look_back(),
            Call::Window => self.damaged_window(),
        }
    }

    // The answer is one that the call can give on some words.
    fn damaged_answered(&mut self, call: Call, got: Called) -> Result<Answer, Finding> {
        let answer = got.map_err(|_| Finding::Never)?;
        if let Err(refusal) = answer {
            unless(may(call, refusal), Finding::Never)?;
        }
        self.tally.damaged.count(answer);
        Ok(answer)
    }

    // The words are kept from one on.
    fn damaged_left(&self, start: usize) -> Result<(), Finding> {
        unless(self.store.is_kept_from(start), Finding::Wrote)
    }

    // A start on a damaged store is as on any.
    fn damaged_start(&mut self) -> Result<(), Finding> {
        let s = self.history.settings();
        let got = called::start(self.store, self.history.length, s);
        self.damaged_answered(Call::Start, got)?
            .map_err(|_| Finding::Never)?;
        self.store.keep_started(s.layout());
        self.damaged_left(AFTER_SETTINGS)
    }

    // A refused change leaves all words, an accepted one those beyond the layout, by the settings in the store's own head.
    fn damaged_change(&mut self, kind: Kind) -> Result<(), Finding> {
        let c = damage::change(self.store, &mut self.history, kind);
        let got = called::change(self.store, c);
        let answer = self.damaged_answered(Call::Change(kind), got)?;
        let end = settings(self.store.kept()).layout();
        self.damaged_left(if answer.is_ok() { end } else { 0 })
    }

    // A second to look back at: often one of the history.
    fn past(&mut self) -> u32 {
        if self.history.random.once_in(3) {
            return damage::second(self.store, &mut self.history.random);
        }
        draw::past(&mut self.history)
    }

    fn damaged_look_back(&mut self) -> Result<(), Finding> {
        let second = self.past();
        let length = self.history.length;
        let a = draw::look_back_at(&mut self.history, length, second);
        let (got, looked) = called::look_back(self.store, a);
        let answer = self.damaged_answered(Call::LookBack, got)?;
        looked.left(a, answer)?;
        self.damaged_left(0)
    }

    fn damaged_window(&mut self) -> Result<(), Finding> {
        let last = self.past();
        let length = self.history.length;
        let a = draw::window_to(&mut self.history, length, last);
        let (got, crossed) = called::window(self.store, a);
        let answer = self.damaged_answered(Call::Window, got)?;
        self.tally.damaged_windows.count(answer);
        crossed.left(a, answer)?;
        self.damaged_left(0)
    }
}
