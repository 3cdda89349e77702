// What did not agree, and where. The first twenty notes are printed.
ghost use Rattle.std.specs.Prelude.{◌≡◌};
ghost use Rattle.model.specs.Notes.{begun, noted};

use crate::answers::Count;
use crate::out::print;
use std::fmt::Display;

#[derive(Clone, Copy, Default)]
pub struct Notes {
    // The history that runs, and its call.
    history: u32,
    call: Count,
    pub mismatches: Count,
}

impl Notes {
    pub(crate) fn begin_history(&mut self, history: u32) {
        self.history = history;
        self.call = Count::default();
    }

    pub fn begin_call(&mut self)
        ensures { self.new ≡ begun self.old }
    {
        self.call += 1;
    }

    pub fn note<T: Display + Drop>(&mut self, what: T)
        ensures { self.new ≡ noted self.old }
    {
        self.mismatches += 1;
        if self.mismatches.0 <= 20 {
            print(format_args!("mismatch {} {} {what}\n", self.history, self.call));
        }
    }
}
