// One history: two stores of the same marks, a start, and changes drawn at random, each made by both builds and compared. The book goes along,
// since the changes are drawn by it.
use crate::builds::Told;
use crate::burst::Burst;
use crate::closings::Closings;
use crate::pair::{Difference, Pair};
use crate::tally::Tally;
use model::asked::{Change, Kind};
use model::history::History;
use model::notes::Notes;
use model::refusal::{Called, Refusal, numbered};
use model::settings::Settings;
use model::{draw, due};

// A history that runs, with what all of them share. (`histories` has another, and says why.)
#[derive(Drop)]
pub struct Run<'a> {
    pub history: History,
    pub burst: Burst,
    pub pair: &'a mut Pair,
    pub tally: &'a mut Tally,
    pub notes: &'a mut Notes,
}

impl<'a> Run<'a> {
    // A whole history: in one of six a few calls on the unstarted store; a start; then the calls.
    pub fn play(&mut self, calls: u32) {
        let settings = self.history.settings();
        let length = self.history.length;
        self.pair.store.begin(length);
        self.pair.level();
        if self.history.random.once_in(6) {
            self.turns(3);
        }
        self.start(settings, length);
        self.turns(calls);
    }

    fn turns(&mut self, calls: u32) {
        for _ in 0..calls {
            self.turn();
        }
    }

    // One call, in a burst of mostly one kind; a change that finds no block left may have a start behind it, so that blocks go on closing.
    fn turn(&mut self) {
        let mostly = self.burst.next(&mut self.history);
        let kind = match self.history.random.below(200) {
            0..=9 => Kind::Set,
            10..=19 => Kind::Clear,
            20..=29 => Kind::Update,
            30..=35 => Kind::Advance,
            36 => return self.start_anew(),
            _ => mostly,
        };
        let got = self.change(kind);
        if got == Ok(Err(Refusal::OutOfBlocks)) && self.history.random.once_in(4) {
            self.start_anew();
        }
    }

    // Notes where the builds differ. Then both go on from the first build's store, so that each difference is found for itself. What the first
    // build answered.
    fn compared(&mut self, one: Told, another: Told) -> Called {
        if let Err(what) = self.pair.compare(one, another) {
            self.notes.note(what);
            self.pair.level();
        }
        match one {
            Ok(_) => Ok(Ok(())),
            Err(refusal) => numbered(refusal.number()),
        }
    }

    // A start; an accepted one begins log and book anew.
    fn start(&mut self, settings: Settings, length: usize) {
        self.notes.begin_call();
        let (one, another) = self.pair.start(length, settings);
        let got = self.compared(one, another);
        self.tally.honest.answered(got);
        if got == Ok(Ok(())) {
            self.history.begin(settings);
            self.pair.store.keep();
        }
    }

    // A start within a history: with the same settings again, or now and then other ones; in a long history with bad ones, so that it goes on.
    fn start_anew(&mut self) {
        let others = self.history.random.once_in(4) || self.history.settings().is_long();
        let settings = if others {
            draw::settings(&mut self.history)
        } else {
            self.history.settings()
        };
        let length = draw::length(&mut self.history);
        self.start(settings, length);
    }

    // A change on both stores.
    pub(crate) fn made(&mut self, c: Change) -> Called {
        self.notes.begin_call();
        let (one, another) = self.pair.change(c);
        self.compared(one, another)
    }

    // A set, clear, new reading or clock move. What is due puts it into the book; an accepted one goes into the log, too.
    fn change(&mut self, kind: Kind) -> Called {
        let drawn = draw::change(&mut self.history, kind);
        let c = self.burst.with_tag(drawn);
        let due = due::change(&mut self.history, c);
        let got = self.made(c);
        if got != Ok(due) {
            self.notes.note(Difference::NotDue);
        }
        self.tally.honest.answered(got);
        if got == Ok(Ok(())) {
            self.history.enter(c);
            let closings = Closings::of(&self.pair.store, kind);
            self.tally.closed(closings);
            self.pair.store.keep();
        }
        got
    }
}
