// The console byte by byte: a program feeds the input's bytes in order and prints what each step says; at the end of the input it asks for the
// last line, which may lack its newline, and then for a missing one.
ghost use Rattle.std.specs.Prelude.{◌≡◌};
ghost use Rattle.console_run.specs.Words.{lent_of, SameLent};
ghost use Rattle.console_run.specs.Feed.{stepped, begun, next_number, goes_on, taken, fed, last_taken};

use crate::lent::LentWords;
use crate::turn;
use crate::turn::{Said, Stage};
use console_text::gather::Gather;
use std::marker::Model;

#[derive(Clone, Copy)]
pub struct Console {
    pub stage: Stage,
    pub gather: Gather,
    // the number of the line that is awaited or gathered, from 1
    pub number: u64,
}

// Contracts see its fields. (The model is there for copies: a struct that has none is passed by value once only, as the check stands, where a
// field has one.)
impl Model for Console {
    ghost use Rattle.console_run.specs.Between.{Between};

    ghost Value = { Between };

    ghost view = { λ c. record { stage = c.stage; gather = c.gather; number = c.number } };

    ghost inverse = { λ c. record { stage = c.stage; gather = c.gather; number = c.number } };
}

// What is said of the input line `number`.
#[derive(Clone, Copy)]
pub struct Step {
    pub said: Said,
    pub number: u64,
}

// Lines and reads are counted up to the largest u64: no input has as many.
pub const COUNT_MOST: u64 = u64::MAX;

// The number after this one.
#[tactic(auto, unfolding(crate::specs::Feed::next_number))]
pub fn next_number(number: u64) -> u64
    ensures { result ≡ next_number number }
{
    number.saturating_add(1)
}

impl Console {
    // Before the first byte.
    pub fn new() -> Console
        ensures { result ≡ begun }
    {
        Console {
            stage: Stage::SettingsNames,
            gather: Gather::new(),
            number: 1,
        }
    }

    // No line is complete: nothing is said.
    fn goes_on(&self) -> Step
        ensures { result ≡ goes_on self.now }
    {
        Step {
            said: Said::Nothing,
            number: self.number,
        }
    }

    // This line is complete: the next is awaited.
    #[tactic(auto, unfolding(crate::specs::Feed::taken))]
    fn take(&mut self, line: &Gather, lent: &mut LentWords<'_>) -> Step
        ensures same { SameLent lent.old lent.new }
        ensures takes { stepped result self.new (lent_of lent.new) ≡ taken self.old line.now (lent_of lent.old) }
    {
        let number = self.number;
        let turn = turn::take_line(self.stage, line, lent);
        self.stage = turn.next;
        self.number = next_number(number);
        Step {
            said: turn.said,
            number,
        }
    }

    // The next byte.
    #[tactic(auto, unfolding(crate::specs::Feed::fed, crate::specs::Feed::fed_by))]
    pub fn feed(&mut self, byte: u8, lent: &mut LentWords<'_>) -> Step
        ensures same { SameLent lent.old lent.new }
        ensures feeds { stepped result self.new (lent_of lent.new) ≡ fed self.old (lent_of lent.old) byte }
    {
        match self.gather.feed(byte) {
            Some(line) => self.take(&line, lent),
            None => self.goes_on(),
        }
    }

    // At the end of the input: the last line, if there is one that lacks its newline.
    #[tactic(auto, unfolding(crate::specs::Feed::last_taken))]
    pub fn last(&mut self, lent: &mut LentWords<'_>) -> Step
        ensures same { SameLent lent.old lent.new }
        ensures takes { stepped result self.new (lent_of lent.new) ≡ last_taken self.old (lent_of lent.old) }
    {
        if !self.gather.left_over() {
            return self.goes_on();
        }
        let line = self.gather;
        self.gather = Gather::new();
        self.take(&line, lent)
    }
}
