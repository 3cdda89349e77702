// What is done, in order.
use Call::{Change, Start};
use Step::{Lent, Made, Shown, Title, Written};
use model::asked::Action;
use model::asked::Action::{Advance, Clear, Set, Update};

// The store of the printed settings: b = 4, q = 2, 8 blocks, 16 tags.
pub const WORDS: usize = 4624;

// One word less than that.
const SHORT: usize = 4623;

// Every start asks for q = 2 and 16 tags.
#[derive(Clone, Copy)]
pub enum Call {
    Start { block: u32, blocks: u32 },
    // A second, and what is done at it.
    Change(u32, Action),
}

#[derive(Clone, Copy)]
pub enum Step {
    Title(&'static str),
    // A call on the whole store, and one that is lent only so many words.
    Made(Call),
    Lent(usize, Call),
    // A word is written by other hands.
    Written { place: usize, word: u32 },
    Shown,
}

// P8 and P12, where the last store is one word too short for a register; then stores too short for the layout of their head, or for a head;
// the printed changes; P9, P10 and P11; the refusals that need some state; a new reading and a clock move; a directory word that names no
// placed record, which is unsound, and a head with another mark; with one block the fifth set would open another.
pub const SCRIPT: [Step; 54] = [
    Title("P8"),
    Made(Start {
        block: 4,
        blocks: 8,
    }),
    Made(Start {
        block: 3,
        blocks: 8,
    }),
    Title("P12"),
    Made(Start {
        block: 4,
        blocks: 8,
    }),
    Lent(
        SHORT,
        Start {
            block: 4,
            blocks: 8,
        },
    ),
    Title("short stores"),
    Lent(SHORT, Change(1, Advance)),
    Lent(
        15,
        Start {
            block: 4,
            blocks: 8,
        },
    ),
    Lent(15, Change(1, Set { tag: 1, reading: 1 })),
    Shown,
    Title("printed changes"),
    Made(Change(
        1,
        Set {
            tag: 1,
            reading: 25,
        },
    )),
    Made(Change(
        2,
        Set {
            tag: 2,
            reading: 4294967271,
        },
    )),
    Made(Change(3, Set { tag: 3, reading: 5 })),
    Made(Change(
        4,
        Set {
            tag: 4,
            reading: 140,
        },
    )),
    Made(Change(5, Set { tag: 5, reading: 0 })),
    Made(Change(6, Clear { tag: 2 })),
    Made(Change(7, Clear { tag: 3 })),
    Made(Change(8, Clear { tag: 1 })),
    Shown,
    Title("P9"),
    Made(Change(8, Set { tag: 6, reading: 1 })),
    Title("P10"),
    Made(Change(7, Set { tag: 7, reading: 1 })),
    Title("P11"),
    Made(Change(
        8,
        Set {
            tag: 15,
            reading: 1,
        },
    )),
    Made(Change(
        8,
        Set {
            tag: 16,
            reading: 1,
        },
    )),
    Title("refusals"),
    Made(Change(layout::OPEN, Advance)),
    Made(Change(7, Advance)),
    Made(Change(9, Set { tag: 4, reading: 1 })),
    Made(Change(9, Clear { tag: 2 })),
    Made(Change(9, Update { tag: 2, reading: 1 })),
    Title("new reading, clock"),
    Made(Change(
        9,
        Update {
            tag: 4,
            reading: 4294967295,
        },
    )),
    Made(Change(12, Advance)),
    Shown,
    Title("damaged"),
    Written {
        place: 4389,
        word: 99,
    },
    Made(Change(13, Clear { tag: 5 })),
    Made(Change(13, Update { tag: 5, reading: 1 })),
    Written {
        place: 0,
        word: 7000,
    },
    Made(Change(13, Advance)),
    Shown,
    Title("out of blocks"),
    Made(Start {
        block: 4,
        blocks: 1,
    }),
    Made(Change(
        1,
        Set {
            tag: 0,
            reading: 10,
        },
    )),
    Made(Change(
        1,
        Set {
            tag: 1,
            reading: 11,
        },
    )),
    Made(Change(
        1,
        Set {
            tag: 2,
            reading: 12,
        },
    )),
    Made(Change(
        1,
        Set {
            tag: 3,
            reading: 13,
        },
    )),
    Made(Change(
        1,
        Set {
            tag: 4,
            reading: 14,
        },
    )),
    Made(Change(1, Update { tag: 3, reading: 7 })),
    Shown,
];
