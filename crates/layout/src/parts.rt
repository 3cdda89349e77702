// Parts of the store, as slices: a numbered block, a level of the index, a page in the middle of its level; and the words of a block.
ghost use Rattle.std.specs.Prelude.{◌≡◌, ◌+◌, ◌*◌, ◌≤◌, ◌<◌, length, replicate};
ghost use Rattle.std.proofs.lemmas.List.Edits.{sets};
ghost use Rattle.layout.specs.Sizes.{level_len, page_len, dir_start, block_head, record_len};
ghost use Rattle.layout.specs.Address.{Numbered};
ghost use Rattle.layout.specs.Parts.{block_word, slot_word};
ghost use Rattle.layout.specs.PartsLaws.{Part, BlockPart, LevelPart, PagePart};
ghost use Rattle.layout.specs.OnWords.{Held};

use crate::settings::Settings;
use crate::{address, sizes};

// `len` words from `start` on.
fn part(words: &[u32], start: usize, len: usize) -> &[u32]
    requires { start + len ≤ length words.now }
    ensures { Part words.now start len result.now }
{
    &words[start..start + len]
}

// Block n.
pub fn block(store: &[u32], s: Settings, n: u32) -> &[u32]
    requires numbered { Numbered s n }
    requires held { Held s store.now }
    ensures { BlockPart s store.now n result.now }
{
    let start = address::block_start(s, n);
    part(store, start, s.block_words())
}

// How many words a level of the index has.
fn level_words(l: u32) -> usize
    ensures { result ≡ level_len l }
{
    match l {
        0 => sizes::LEVEL_1 - sizes::LEVEL_0,
        1 => sizes::LEVEL_2 - sizes::LEVEL_1,
        _ => sizes::DIR_START - sizes::LEVEL_2,
    }
}

// Level l of the index.
pub fn level(store: &[u32], l: u32) -> &[u32]
    requires { dir_start ≤ length store.now }
    ensures { LevelPart store.now l result.now }
{
    let start = address::level_start(l);
    part(store, start, level_words(l))
}

// Page e of a level, counted from 0.
pub fn page(level: &[u32], e: u32) -> &[u32]
    requires { page_len * e + page_len ≤ length level.now }
    ensures { PagePart level.now e result.now }
{
    let len = sizes::PAGE as usize;
    let start = len * e as usize;
    part(level, start, len)
}

// A second, a link or a word of standing bits of a block.
pub fn block_word(block: &[u32], j: u32) -> u32
    requires { j < length block.now }
    ensures { result ≡ block_word block.now j }
{
    block[j as usize]
}

// A word of the record in slot k of a block.
pub fn slot_word(block: &[u32], k: u32, i: u32) -> u32
    requires { block_head + (record_len * k + i) < length block.now }
    ensures { result ≡ slot_word block.now k i }
{
    let at = sizes::BLOCK_HEAD + (sizes::RECORD_LEN * k as usize + i as usize);
    block[at]
}

// Every word of a part set to zero.
pub fn zero_all(part: &mut [u32])
    ensures { part.new ≡ replicate (length part.old) 0 }
{
    part.fill(0);
}

// The words of a store from `start` on, `len` of them, set to zero.
pub(crate) fn zero_part(store: &mut [u32], start: usize, len: usize)
    requires { start + len ≤ length store.old }
    ensures { store.new ≡ sets store.old start (replicate len 0) }
{
    zero_all(&mut store[start..start + len]);
}
