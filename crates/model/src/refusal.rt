// Why a call is turned away, with the paper's numbers. They are named as the register's own (layout/src/refusal.rt), and written anew so that a
// wrong number there is found here.
ghost use Rattle.std.specs.Prelude.{◌≡◌, ◌≤◌, ◌↔◌, IsOk, IfOk, IfErr};
ghost use Rattle.model.specs.Numbers.{refusal_number, answer_number, Names};

#[derive(Clone, Copy, PartialEq, Eq)]
pub enum Refusal {
    Settings = 1,
    ShortHead = 2,
    Head = 3,
    ShortStore = 4,
    TimeOpen = 5,
    Early = 6,
    Late = 7,
    Tag = 8,
    Standing = 9,
    NotStanding = 10,
    ShortBuffer = 11,
    Unsound = 12,
    OutOfBlocks = 13,
    Reversed = 14,
}

// A number that names no refusal.
#[derive(Clone, Copy, PartialEq, Eq)]
pub struct UnknownRefusal(pub u32);

// What a call answers.
pub type Answer = Result<(), Refusal>;

impl From<Refusal> for u32 {
    ghost from_gives = { λ refusal n. n ≡ refusal_number refusal };

    fn from(refusal: Refusal) -> u32 {
        refusal as u32
    }
}

impl TryFrom<u32> for Refusal {
    type Error = UnknownRefusal;

    ghost try_from_gives = { Names };

    fn try_from(number: u32) -> Result<Refusal, UnknownRefusal> {
        match number {
            1 => Ok(Refusal::Settings),
            2 => Ok(Refusal::ShortHead),
            3 => Ok(Refusal::Head),
            4 => Ok(Refusal::ShortStore),
            5 => Ok(Refusal::TimeOpen),
            6 => Ok(Refusal::Early),
            7 => Ok(Refusal::Late),
            8 => Ok(Refusal::Tag),
            9 => Ok(Refusal::Standing),
            10 => Ok(Refusal::NotStanding),
            11 => Ok(Refusal::ShortBuffer),
            12 => Ok(Refusal::Unsound),
            13 => Ok(Refusal::OutOfBlocks),
            14 => Ok(Refusal::Reversed),
            _ => Err(UnknownRefusal(number)),
        }
    }
}

// The number of an answer: 0 for an accepted call.
pub(crate) fn number(answer: Answer) -> u32
    ensures number { result ≡ answer_number answer }
    ensures most { result ≤ 14 }
{
    answer.err().map_or(0, u32::from)
}

// What a call answered by a number: any that is none of the answers' is an error.
pub type Called = Result<Answer, UnknownRefusal>;

pub fn numbered(number: u32) -> Called
    ensures known { IsOk result ↔ (number ≤ 14) }
    ensures same { IfOk result (λ answer. answer_number answer ≡ number) }
    ensures unknown { IfErr result (λ unknown. unknown.0 ≡ number) }
{
    if number == 0 {
        Ok(Ok(()))
    } else {
        Refusal::try_from(number).map(Err)
    }
}
