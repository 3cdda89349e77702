// How often each answer came.
ghost use Rattle.std.specs.Prelude.{◌≡◌, ◌-◌, ◌^◌, min, drop, slice_set, sum_by};
ghost use Rattle.model.specs.Numbers.{answer_number};
ghost use Rattle.model.specs.Answers.{counts_of, times, one_more, counts_in};

use crate::refusal::{Answer, number};
use std::fmt;
use std::num::Saturating;

pub type Count = Saturating<u32>;

// By number: 0 for an accepted call, then the refusals 1 to 14.
#[derive(Clone, Copy, Default)]
pub struct Answers([Count; 15]);

// The counts of the refusals, with a blank before each.
#[derive(Clone, Copy)]
pub struct Refused<'a>(&'a [Count]);

impl Answers {
    pub fn count(&mut self, answer: Answer)
        ensures { let n = answer_number answer in
            counts_of self.new ≡ slice_set (counts_of self.old) n (one_more (times self.old n)) }
    {
        self.0[number(answer) as usize] += 1;
    }

    // How many answers there were.
    pub fn all(&self) -> Count
        ensures { result.0 ≡ min (sum_by (λ count. count.0) (counts_of self.now)) (2 ^ 32 - 1) }
    {
        self.0.iter().sum()
    }

    pub fn accepted(&self) -> Count
        ensures { result ≡ times self.now 0 }
    {
        self.0[0]
    }

    pub fn counts(&self) -> &[Count]
        ensures { result.now ≡ counts_of self.now }
    {
        &self.0
    }

    pub fn refused(&self) -> Refused<'_>
        ensures { counts_in result ≡ drop 1 (counts_of self.now) }
    {
        Refused(&self.0[1..])
    }
}

impl<'a> fmt::Display for Refused<'a> {
    fn fmt<W: fmt::Write>(&self, f: &mut fmt::Formatter<W>) -> fmt::Result {
        for count in self.0 {
            write!(f, " {count}")?;
        }
        Ok(())
    }
}
