// Random histories through the register, against the plain log and the block book of the crate `model`; and calls on damaged stores. It
// prints totals and `mismatches 0`; a line `mismatch HISTORY CALL WHAT` says where something did not agree. A history's number is the seed
// of all that is drawn in it.
#![tactic(auto)]

mod called;
mod damaged;
mod run;
mod tally;

use model::history::History;
use model::notes::Notes;
use model::out::print;
use model::played::{Plays, play_all};
use model::random::Random;
use model::settings::{LISTED, Settings};
use model::store::Store;
use run::Run;
use tally::Tally;

// Histories of 200 calls, and long ones.
const HISTORIES: u16 = 5000;

const CALLS: u32 = 200;

const LONG_HISTORIES: u16 = 24;

// What all histories share.
#[derive(Default, Drop)]
struct Shared {
    store: Store,
    tally: Tally,
}

impl Plays for Shared {
    fn planned(number: u32, _random: &mut Random) -> (Settings, u32) {
        (Settings::listed(number % LISTED), CALLS)
    }

    fn play(&mut self, history: History, calls: u32, notes: &mut Notes) {
        let mut run = Run {
            history,
            store: &mut self.store,
            tally: &mut self.tally,
            notes,
        };
        run.play(calls);
        run.rounds();
    }
}

fn main() {
    let mut shared = Shared::default();
    let mut notes = Notes::default();
    let played = play_all(&mut shared, &mut notes, HISTORIES, LONG_HISTORIES);
    print(format_args!("histories {played}\n"));
    print(shared.tally);
    print(format_args!("mismatches {}\n", notes.mismatches));
}
