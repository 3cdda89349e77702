// The two builds of the change calls. Start and clock move close nothing, so that both builds share them.
use layout::head::Head;
use layout::refusal::Refusal;
use model::asked::{Action, Change};
use model::settings::Settings;

// What a call tells: the next head, or the refusal.
pub type Told = Result<Head, Refusal>;

// A build of set, clear and new reading.
pub trait Build {
    fn set(words: &mut [u32], second: u32, tag: u32, reading: u32) -> Told;

    fn clear(words: &mut [u32], second: u32, tag: u32) -> Told;

    fn update(words: &mut [u32], second: u32, tag: u32, reading: u32) -> Told;
}

// Records go straight from slot to slot.
pub struct Straight;

// Records go through an array of records.
pub struct ByArray;

impl Build for Straight {
    fn set(words: &mut [u32], second: u32, tag: u32, reading: u32) -> Told {
        changes::set(words, second, tag, reading)
    }

    fn clear(words: &mut [u32], second: u32, tag: u32) -> Told {
        changes::clear(words, second, tag)
    }

    fn update(words: &mut [u32], second: u32, tag: u32, reading: u32) -> Told {
        changes::update(words, second, tag, reading)
    }
}

impl Build for ByArray {
    fn set(words: &mut [u32], second: u32, tag: u32, reading: u32) -> Told {
        array_build::set(words, second, tag, reading)
    }

    fn clear(words: &mut [u32], second: u32, tag: u32) -> Told {
        array_build::clear(words, second, tag)
    }

    fn update(words: &mut [u32], second: u32, tag: u32, reading: u32) -> Told {
        array_build::update(words, second, tag, reading)
    }
}

// A start, by either build.
pub fn start(words: &mut [u32], s: Settings) -> Told {
    let asked = layout::settings::Settings::asked(s.block, s.useful, s.blocks, s.tags);
    changes::start(words, asked)
}

// A change by a build.
pub fn change<B: Build>(words: &mut [u32], c: Change) -> Told {
    match c.action {
        Action::Set { tag, reading } => B::set(words, c.second, tag, reading),
        Action::Clear { tag } => B::clear(words, c.second, tag),
        Action::Update { tag, reading } => B::update(words, c.second, tag, reading),
        Action::Advance => changes::advance(words, c.second),
    }
}
