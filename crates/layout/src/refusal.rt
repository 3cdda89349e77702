// Why a call is turned away. Each refusal has its number, which a caller by numbers gets (0 is none).
ghost use Rattle.std.specs.Prelude.{◌≡◌};
ghost use Rattle.layout.specs.RefusalNumbers.{number, refused};

#[derive(Clone, Copy, Debug, PartialEq, Eq)]
pub enum Refusal {
    // a setting is outside its limits
    Settings = 1,
    // the store is shorter than a head
    ShortHead = 2,
    // the head is none that a start or a change left
    Head = 3,
    // the store is shorter than its layout
    ShortStore = 4,
    // a second is OPEN
    TimeOpen = 5,
    // the second is before the clock
    Early = 6,
    // the second is after the clock
    Late = 7,
    // the tag is D or more
    Tag = 8,
    // the tag stands already
    Standing = 9,
    // the tag does not stand
    NotStanding = 10,
    // a lent buffer is too short
    ShortBuffer = 11,
    // a word that is needed is unsound
    Unsound = 12,
    // a block would open, and none is left
    OutOfBlocks = 13,
    // the last second of a window is before its first
    Reversed = 14,
}

impl Refusal {
    // Its number, 1 to 14.
    pub fn number(self) -> u32
        ensures { result ≡ number self }
    {
        self as u32
    }
}

// 0 for what was accepted, else the refusal's number.
pub fn number_of<T: Copy>(answer: Result<T, Refusal>) -> u32
    ensures { result ≡ refused answer }
{
    match answer {
        Ok(_) => 0,
        Err(reason) => reason.number(),
    }
}
