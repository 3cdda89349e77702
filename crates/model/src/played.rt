// The histories of a test program, one after the other. A history's number is the seed of all that is drawn in it.
ghost use Rattle.std.specs.Prelude.{◌≡◌, ◌+◌};

use crate::history::History;
use crate::notes::Notes;
use crate::random::Random;
use crate::settings::{LISTED, Settings};

// The calls of a long history, in which the index gets its third level.
const LONG_CALLS: u32 = 2000;

// What a test program does with a history.
pub trait Plays {
    // The settings and the number of calls of a history that is not long.
    fn planned(number: u32, random: &mut Random) -> (Settings, u32);

    // Makes so many calls, and then others on damaged copies of the store that they left.
    fn play(&mut self, history: History, calls: u32, notes: &mut Notes);
}

// So many histories, and behind them so many long ones: how many were played. (They are counted one by one: where the sum was told instead, a
// loop that left the long ones out was proved too, and an edit that must be refused says so.)
pub fn play_all<P: Plays>(player: &mut P, notes: &mut Notes, short: u16, long: u16) -> u32
    ensures { result ≡ short + long }
{
    let mut played = 0;
    for number in 0..u32::from(short) + u32::from(long) {
        let mut random = Random::seeded(number);
        let (settings, calls) = if number < u32::from(short) {
            P::planned(number, &mut random)
        } else {
            (Settings::listed(LISTED), LONG_CALLS)
        };
        notes.begin_history(number);
        player.play(History::new(random, settings), calls, notes);
        played += 1;
    }
    played
}
