// The five change calls on the paper's printed changes, its edges P8 to P12, and one example of each refusal that a change knows (script.rt).
// Prints each answer with the next head, and the head, the directory and the opened blocks as words (shown.rt).
#![tactic(auto)]

mod script;
mod shown;

use layout::head::Head;
use layout::refusal::Refusal;
use layout::settings::Settings;
use model::asked::Action;
use model::out::print;
use script::{Call, SCRIPT, Step, WORDS};
use shown::{Shown, Told};

// A call on the words that are lent.
fn made(lent: &mut [u32], call: Call) -> Result<Head, Refusal> {
    match call {
        Call::Start { block, blocks } => changes::start(
            lent,
            Settings::asked(block, 2, blocks, 16),
        ),
        Call::Change(second, Action::Set { tag, reading }) => {
            changes::set(lent, second, tag, reading)
        }
        Call::Change(second, Action::Clear { tag }) => changes::clear(lent, second, tag),
        Call::Change(second, Action::Update { tag, reading }) => {
            changes::update(lent, second, tag, reading)
        }
        Call::Change(second, Action::Advance) => changes::advance(lent, second),
    }
}

fn take(store: &mut [u32; WORDS], step: &Step) {
    match *step {
        Step::Title(title) => print(format_args!("{title}\n")),
        Step::Made(call) => print(Told(made(store, call))),
        Step::Lent(words, call) => {
            let end = words.min(WORDS);
            print(Told(made(&mut store[..end], call)));
        }
        Step::Written { place, word } => {
            if let Some(known) = store.get_mut(place) {
                *known = word;
            }
        }
        Step::Shown => print(Shown(store)),
    }
}

fn main() {
    let mut store = [9u32; WORDS];
    for step in &SCRIPT {
        take(&mut store, step);
    }
}
