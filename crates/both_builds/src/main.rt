// Random histories through both builds of the change calls: records go straight from slot to slot (`changes`), or through an array of records
// (`array_build`); and changes on damaged stores. It prints totals and `mismatches 0`; a line `mismatch HISTORY CALL WHAT` says where the answers
// (1), the next heads (2) or the words of the stores (3) differed, or where an answer was not the one due by the book (4). A history's number is
// the seed of all that is drawn in it.
#![tactic(auto)]

mod builds;
mod burst;
mod closings;
mod damaged;
mod pair;
mod run;
mod tally;

use burst::Burst;
use model::draw;
use model::history::History;
use model::notes::Notes;
use model::out::print;
use model::played::{Plays, play_all};
use model::random::Random;
use model::settings::{LISTED, Settings};
use pair::Pair;
use run::Run;
use tally::Tally;

// Histories, and long ones.
const HISTORIES: u16 = 4000;

const LONG_HISTORIES: u16 = 16;

// What all histories share.
#[derive(Default, Drop)]
struct Shared {
    pair: Pair,
    tally: Tally,
}

impl Plays for Shared {
    // One of two histories has listed settings, the other any. The more records a block has, the more calls it takes to fill and close some.
    fn planned(number: u32, random: &mut Random) -> (Settings, u32) {
        let settings = if number % 2 == 0 {
            Settings::listed(number / 2 % LISTED)
        } else {
            draw::any_settings(random)
        };
        let calls = settings.block.saturating_mul(16).saturating_add(100);
        (settings, calls)
    }

    fn play(&mut self, history: History, calls: u32, notes: &mut Notes) {
        let mut run = Run {
            history,
            burst: Burst::default(),
            pair: &mut self.pair,
            tally: &mut self.tally,
            notes,
        };
        run.play(calls);
        run.rounds();
    }
}

fn main() {
    let mut shared = Shared::default();
    let mut notes = Notes::default();
    let played = play_all(&mut shared, &mut notes, HISTORIES, LONG_HISTORIES);
    print(format_args!("histories {played}\n"));
    print(shared.tally);
    print(format_args!("mismatches {}\n", notes.mismatches));
}
