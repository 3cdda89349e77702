// ANY CALL as one value, and what comes back: one step of a history (calls.specs.History).
ghost use Rattle.applying.specs.Applied.{Applied};

use layout::head::Head;
use layout::refusal::Refusal;
use layout::settings::Settings;
use timeslice::Slice;

// The six calls. A look-back's two buffers are lent beside it.
#[derive(Clone, Copy)]
pub enum Call {
    // b, q, B and D
    Start(Settings),
    // second, tag, reading
    Set(u32, u32, u32),
    // second, tag
    Clear(u32, u32),
    // second, tag, new reading
    Update(u32, u32, u32),
    // second
    Advance(u32),
    // second
    LookBack(u32),
}

// What an accepted call gives: the next head, or a look-back's numbers and pages.
#[derive(Clone, Copy)]
pub enum Answer {
    Done(Head),
    Shown(Slice),
}

// One call. Only a look-back touches the two buffers.
pub fn apply(
    store: &mut [u32],
    call: Call,
    rows: &mut [u32],
    list: &mut [u32],
) -> Result<Answer, Refusal>
    ensures { Applied store.old call rows.old
        list.old result store.new rows.new list.new }
{
    match call {
        Call::Start(asked) => changes::start(store, asked).map(Answer::Done),
        Call::Set(second, tag, reading) => {
            changes::set(store, second, tag, reading).map(Answer::Done)
        }
        Call::Clear(second, tag) => changes::clear(store, second, tag).map(Answer::Done),
        Call::Update(second, tag, reading) => {
            changes::update(store, second, tag, reading).map(Answer::Done)
        }
        Call::Advance(second) => changes::advance(store, second).map(Answer::Done),
        Call::LookBack(second) => {
            timeslice::look_back(store, second, rows, list).map(Answer::Shown)
        }
    }
}
