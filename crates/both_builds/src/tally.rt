// The totals, and how they are printed.
use crate::closings::Closings;
use model::answers::{Answers, Count};
use model::refusal::Called;
use std::fmt;

// Counts of the calls of histories, or of those on damaged stores.
#[derive(Clone, Copy, Default)]
pub struct Counts {
    answers: Answers,
    // Closings, changes that closed two blocks, and records moved.
    closings: Count,
    of_two: Count,
    moved: Count,
    // Closings by changes that moved no record, and the most records that one change moved.
    none_moved: Count,
    most_moved: u32,
    // Closing changes by how many records they moved (class).
    by_moved: [Count; 7],
    // Closings of a block with a standing slot that the directory did not name, and the most blocks opened.
    strays: Count,
    most_opened: u32,
}

// Of the histories, for some b: closings, records moved, and the most that one change moved.
#[derive(Clone, Copy, Default)]
struct OfBlock {
    closings: Count,
    moved: Count,
    most_moved: u32,
}

#[derive(Clone, Copy, Default)]
pub struct Tally {
    pub honest: Counts,
    pub damaged: Counts,
    // b 2 to 3, and from 4, 8, 16 and 32 on.
    by_block: [OfBlock; 5],
}

// Counts as they are printed: what the calls were made on stands behind the first line's name, and before the other lines what they are of.
#[derive(Clone, Copy)]
struct Told<'a>(&'a Counts, &'static str, &'static str);

// Where a number is counted by its size: 0, 1, and from 2, 4, 8, 16 and 32 on.
fn class(n: u32) -> usize {
    match n {
        0 => 0,
        1 => 1,
        2..=3 => 2,
        4..=7 => 3,
        8..=15 => 4,
        16..=31 => 5,
        _ => 6,
    }
}

impl Counts {
    pub fn answered(&mut self, got: Called) {
        if let Ok(answer) = got {
            self.answers.count(answer);
        }
    }

    // Counts what an accepted change closed and moved.
    pub fn closed(&mut self, made: Closings) {
        self.most_opened = self.most_opened.max(made.opened);
        self.strays += made.strays;
        if made.closed == 0 && made.moved == 0 {
            return;
        }
        self.closings += made.closed;
        self.of_two += u32::from(2 <= made.closed);
        self.moved += made.moved;
        self.most_moved = self.most_moved.max(made.moved);
        if made.moved == 0 {
            self.none_moved += made.closed;
        }
        if let Some(count) = self.by_moved.get_mut(class(made.moved)) {
            *count += 1;
        }
    }
}

impl Tally {
    // Counts what an accepted change of a history closed and moved, by b too.
    pub fn closed(&mut self, made: Closings) {
        self.honest.closed(made);
        if let Some(of) = self.by_block.get_mut(class(made.block).saturating_sub(2)) {
            of.closings += made.closed;
            of.moved += made.moved;
            of.most_moved = of.most_moved.max(made.moved);
        }
    }
}

impl<'a> fmt::Display for Told<'a> {
    fn fmt<W: fmt::Write>(&self, f: &mut fmt::Formatter<W>) -> fmt::Result {
        let Told(counts, on, of) = *self;
        writeln!(f, "calls{on} {}", counts.answers.all())?;
        writeln!(f, "{of}accepted calls {}", counts.answers.accepted())?;
        writeln!(f, "{of}refusals 1 to 14:{}", counts.answers.refused())?;
        writeln!(f, "{of}closings {}", counts.closings)?;
        writeln!(f, "{of}changes that closed two blocks {}", counts.of_two)?;
        writeln!(f, "{of}records moved {}", counts.moved)?;
        writeln!(
            f,
            "{of}closings by changes that moved no record {}",
            counts.none_moved
        )?;
        writeln!(
            f,
            "{of}most records moved by one change {}",
            counts.most_moved
        )?;
        let [none, one, two, four, eight, sixteen, more] = counts.by_moved;
        writeln!(
            f,
            "{of}closing changes by records moved: none {none}, 1 {one}, 2 to 3 {two}, 4 to 7 {four}, 8 to 15 {eight}, 16 to 31 {sixteen}, more {more}"
        )?;
        writeln!(
            f,
            "{of}closings of a block with a standing record that the directory does not name {}",
            counts.strays
        )
    }
}

impl fmt::Display for Tally {
    fn fmt<W: fmt::Write>(&self, f: &mut fmt::Formatter<W>) -> fmt::Result {
        write!(f, "{}", Told(&self.honest, "", ""))?;
        writeln!(f, "most blocks opened {}", self.honest.most_opened)?;
        for (of, b) in self
            .by_block
            .iter()
            .zip(["2 to 3", "4 to 7", "8 to 15", "16 to 31", "32 to 64"])
        {
            writeln!(
                f,
                "b {b}: closings {}, records moved {}, most by one change {}",
                of.closings, of.moved, of.most_moved
            )?;
        }
        write!(
            f,
            "{}",
            Told(&self.damaged, " on damaged stores", "damaged, ")
        )
    }
}
