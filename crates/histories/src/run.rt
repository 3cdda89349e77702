// One history: a store of marks, a start, and calls drawn at random, each made on the register and compared with the log and the book.
use crate::called;
use crate::tally::Tally;
use model::agree::store_agrees;
use model::asked::Kind;
use model::finding::{Finding, unless};
use model::history::History;
use model::notes::Notes;
use model::refusal::{Answer, Called};
use model::settings::Settings;
use model::store::{AFTER_SETTINGS, Store};
use model::{draw, due};

// A history that runs, with what all of them share. (`both_builds` has another: its changes come in bursts, are made on two stores, and go on
// after what does not agree. A struct for both would hold the parts that differ as parameters, and no method would be the same.)
#[derive(Drop)]
pub struct Run<'a> {
    pub history: History,
    pub store: &'a mut Store,
    pub tally: &'a mut Tally,
    pub notes: &'a mut Notes,
}

impl<'a> Run<'a> {
    // A whole history: in one of six a few calls on the unstarted store; a start; then the calls. It ends at what does not agree.
    pub fn play(&mut self, calls: u32) {
        self.store.begin(self.history.length);
        if let Err(what) = self.calls(calls) {
            self.notes.note(what);
        }
        self.tally.count_blocks(&self.history.book);
    }

    fn calls(&mut self, calls: u32) -> Result<(), Finding> {
        let settings = self.history.settings();
        let length = self.history.length;
        if self.history.random.once_in(6) {
            self.turns(3)?;
        }
        self.start(settings, length)?;
        self.turns(calls)
    }

    fn turns(&mut self, calls: u32) -> Result<(), Finding> {
        for _ in 0..calls {
            self.notes.begin_call();
            self.turn()?;
        }
        Ok(())
    }

    // One call.
    fn turn(&mut self) -> Result<(), Finding> {
        match self.history.random.below(200) {
            0..=69 => self.change(Kind::Set),
            70..=109 => self.change(Kind::Clear),
            110..=144 => self.change(Kind::Update),
            145..=154 => self.change(Kind::Advance),
            155..=184 => self.look_back(),
            185..=198 => self.window(),
            _ => {
                let settings = draw::settings(&mut self.history);
                let length = draw::length(&mut self.history);
                self.start(settings, length)
            }
        }
    }

    // The answer of a call is the one due.
    fn answered(&mut self, due: Answer, got: Called) -> Result<(), Finding> {
        unless(got == Ok(due), Finding::NotDue)?;
        self.tally.answers.count(due);
        Ok(())
    }

    // A refused call leaves all words; after an accepted one the store agrees with book and log, and has the kept words from `start` on.
    fn settle(&mut self, answer: Answer, start: usize) -> Result<(), Finding> {
        if answer.is_err() {
            return unless(self.store.is_kept_from(0), Finding::RefusedWrote);
        }
        self.tally.accepted += 1;
        store_agrees(self.store, &self.history)?;
        unless(self.store.is_kept_from(start), Finding::Beyond)?;
        self.store.keep();
        Ok(())
    }

    fn start(&mut self, settings: Settings, length: usize) -> Result<(), Finding> {
        let due = due::start(settings, length);
        let got = called::start(self.store, length, settings);
        self.answered(due, got)?;
        if due.is_ok() {
            self.tally.count_blocks(&self.history.book);
            self.history.begin(settings);
            self.store.keep_started(settings.layout());
        }
        self.settle(due, AFTER_SETTINGS)
    }

    // A set, clear, new reading or clock move.
    fn change(&mut self, kind: Kind) -> Result<(), Finding> {
        let c = draw::change(&mut self.history, kind);
        let due = due::change(&mut self.history, c);
        let got = called::change(self.store, c);
        self.answered(due, got)?;
        if due.is_ok() {
            self.history.enter(c);
        }
        let end = self.history.settings().layout();
        self.settle(due, end)
    }

    fn look_back(&mut self) -> Result<(), Finding> {
        let a = draw::look_back(&mut self.history);
        let due = due::look_back(&self.history, a);
        let (got, looked) = called::look_back(self.store, a);
        self.answered(due, got)?;
        looked.agrees(&self.history, a, due)?;
        if due.is_ok() {
            self.tally.look_backs += 1;
            self.tally.rows += looked.found.row_count();
            self.tally.listed += looked.list_count();
        }
        Ok(())
    }

    // (Beside a look-back: a trait of both would name each of these calls twice more, in two impls, to spare this function.)
    fn window(&mut self) -> Result<(), Finding> {
        let a = draw::window(&mut self.history);
        let due = due::window(&self.history, a);
        let (got, crossed) = called::window(self.store, a);
        self.answered(due, got)?;
        self.tally.windows.count(due);
        crossed.agrees(&self.history, a, due)?;
        if due.is_ok() {
            self.tally.window_rows += crossed.row_count();
        }
        Ok(())
    }
}
