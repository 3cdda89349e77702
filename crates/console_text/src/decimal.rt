// Plain decimals: a field read as a number, and a number's digits put at a line's end.
ghost use Rattle.std.specs.Prelude.{◌≡◌, ◌+◌, ◌^◌, ◌<◌, ◌≤◌, ◌++◌};
ghost use Rattle.arrayvec.specs.ArrayVec.{array_vec_len};
ghost use Rattle.console_text.specs.Decimal.{spare_zero, number_of, word_of, reading_of, negated, decimal};
ghost use Rattle.console_text.specs.Output.{line_room};

use crate::print::{OutputLine, put_text};

// The largest reading, and the largest one below zero, its minus aside.
const MOST_ABOVE: u32 = 2147483647;

const MOST_BELOW: u32 = 2147483648;

// A zero before other digits.
fn spare_zero(field: &[u8]) -> bool
    ensures { result ≡ spare_zero field.now }
{
    matches!(field, [b'0', _, ..])
}

// A plain decimal up to `most`. The value only grows, so it is held to `most` at each digit; one that leaves u32 is beyond `most` too.
#[tactic(auto, using(crate::specs::DecimalLaws::digits))]
fn decimal_up_to(field: &[u8], most: u32) -> Option<u32>
    ensures { result ≡ number_of most field.now }
{
    if field.is_empty() || spare_zero(field) {
        return None;
    }
    let mut value: u32 = 0;
    for &byte in field {
        if !byte.is_ascii_digit() {
            return None;
        }
        value = value.checked_mul(10)?.checked_add(u32::from(byte - b'0'))?;
        if most < value {
            return None;
        }
    }
    Some(value)
}

// A setting, a time or a tag.
pub(crate) fn word(field: &[u8]) -> Option<u32>
    ensures { result ≡ word_of field.now }
{
    decimal_up_to(field, u32::MAX)
}

// The stored word of a reading below zero; a minus before 0 is no reading.
fn negated(size: u32) -> Option<u32>
    ensures { result ≡ negated (Some size) }
{
    (size != 0).then_some(size.wrapping_neg())
}

// A reading, as its stored word.
pub(crate) fn reading(field: &[u8]) -> Option<u32>
    ensures { result ≡ reading_of field.now }
{
    match field {
        [b'-', size @ ..] => negated(decimal_up_to(size, MOST_BELOW)?),
        _ => decimal_up_to(field, MOST_ABOVE),
    }
}

// A number's decimal. (The library `io` hands its digits over as a buffer and a count.)
#[tactic(auto, using(crate::specs::DigitsLaws::digits_are))]
pub(crate) fn put_number(line: &mut OutputLine, n: u64)
    requires { array_vec_len line.old + 20 ≤ line_room }
    ensures number { line.new.items ≡ line.old.items ++ decimal n }
    ensures most { array_vec_len line.new ≤ array_vec_len line.old + 20 }
    ensures word { n < 2 ^ 32 → array_vec_len line.new ≤ array_vec_len line.old + 10 }
{
    let mut digits = [0u8; 20];
    let count = io::decimal(n, &mut digits);
    put_text(line, &digits[..count]);
}
