// An input line read: a names line, the settings, or a change. Any other line is none of these.
ghost use Rattle.std.specs.Prelude.{◌≡◌, ◌↔◌, IsTrue, None};
ghost use Rattle.console_text.specs.Input.{settings_names, change_names, settings_line, sign_of, by_sign, change_line};
ghost use Rattle.console_text.specs.Fields.{fields_of, four, four_of, fields_view};

use crate::decimal::{reading, word};
use itertools::Itertools;

// A line after the third. A reading is its stored word. (Beside `Call` of applying: this crate reads text, and rests on no crate of the register.)
#[derive(Clone, Copy)]
pub enum Line {
    // time, tag, reading
    Set(u32, u32, u32),
    // time, tag
    Clear(u32, u32),
    // time, tag, reading
    Update(u32, u32, u32),
    // time
    Advance(u32),
    // time
    LookBack(u32),
}

// (Two functions for two texts: one for any text would be the library's `==`, which says nothing of these two.)
pub fn is_settings_names(line: &[u8]) -> bool
    ensures { IsTrue result ↔ (line.now ≡ settings_names) }
{
    line == b"block,useful,blocks,tags".as_slice()
}

pub fn is_change_names(line: &[u8]) -> bool
    ensures { IsTrue result ↔ (line.now ≡ change_names) }
{
    line == b"time,tag,sign,value".as_slice()
}

// The fields of a line with exactly three commas.
fn four_fields(line: &[u8]) -> Option<(&[u8], &[u8], &[u8], &[u8])>
    ensures { fields_view result ≡ four None four_of (fields_of line.now) }
{
    line.split(|&byte| byte == b',').collect_tuple()
}

// b,q,B,D
#[tactic(auto, using(crate::specs::InputLaws::numbers_by))]
pub fn parse_settings(line: &[u8]) -> Option<(u32, u32, u32, u32)>
    ensures { result ≡ settings_line line.now }
{
    let (block, useful, blocks, tags) = four_fields(line)?;
    Some((word(block)?, word(useful)?, word(blocks)?, word(tags)?))
}

// A sign is one byte.
fn sign_of(field: &[u8]) -> Option<u8>
    ensures { result ≡ sign_of field.now }
{
    match field {
        [sign] => Some(*sign),
        _ => None,
    }
}

// The change of a sign; a field that the sign does not use is 0.
fn by_sign(sign: u8, time: u32, tag: u32, value: u32) -> Option<Line>
    ensures { result ≡ by_sign sign time tag value }
{
    match (sign, tag, value) {
        (b'+', _, _) => Some(Line::Set(time, tag, value)),
        (b'=', _, _) => Some(Line::Update(time, tag, value)),
        (b'-', _, 0) => Some(Line::Clear(time, tag)),
        (b'.', 0, 0) => Some(Line::Advance(time)),
        (b'?', 0, 0) => Some(Line::LookBack(time)),
        _ => None,
    }
}

// time,tag,sign,value
#[tactic(auto, using(crate::specs::InputLaws::numbers_by))]
pub fn parse_change(line: &[u8]) -> Option<Line>
    ensures { result ≡ change_line line.now }
{
    let (time, tag, sign, value) = four_fields(line)?;
    let (time, tag, sign, value) = (word(time)?, word(tag)?, sign_of(sign)?, reading(value)?);
    by_sign(sign, time, tag, value)
}
