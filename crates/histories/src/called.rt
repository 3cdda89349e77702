// The register's calls, each on the first words of the store. What a look-back or a window leaves of its buffers of marks is handed on.
use model::asked::{Action, Change, LookBack, Window};
use model::buffer::lent;
use model::crossed::Crossed;
use model::looked::Looked;
use model::refusal::{Called, numbered};
use model::settings::Settings;
use model::store::Store;

pub fn start(store: &mut Store, length: usize, s: Settings) -> Called {
    let words = store.lent_mut(length);
    numbered(register::register_start(words, s.block, s.useful, s.blocks, s.tags))
}

pub fn change(store: &mut Store, c: Change) -> Called {
    let words = store.lent_mut(c.length);
    numbered(match c.action {
        Action::Set { tag, reading } => register::register_set(words, c.second, tag, reading),
        Action::Clear { tag } => register::register_clear(words, c.second, tag),
        Action::Update { tag, reading } => register::register_update(words, c.second, tag, reading),
        Action::Advance => register::register_advance(words, c.second),
    })
}

pub fn look_back(store: &Store, a: LookBack) -> (Called, Looked) {
    let mut looked = Looked::marked();
    let got = register::register_look_back(
        store.lent(a.length),
        a.second,
        lent(&mut looked.found.rows, a.row_words),
        lent(&mut looked.list, a.list_words),
        &mut looked.found.answer,
    );
    (numbered(got), looked)
}

pub fn window(store: &Store, a: Window) -> (Called, Crossed) {
    let mut crossed = Crossed::marked();
    let got = register::register_window(
        store.lent(a.length),
        a.first,
        a.last,
        lent(&mut crossed.rows, a.row_words),
        &mut crossed.answer,
    );
    (numbered(got), crossed)
}
