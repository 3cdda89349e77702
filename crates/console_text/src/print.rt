// The output lines, each with its newline. They are put together by hand: by its contract the library's `write!` may fail, and these cannot.
ghost use Rattle.std.specs.Prelude.{◌≡◌, ◌+◌, ◌≤◌, ◌++◌, length};
ghost use Rattle.arrayvec.specs.ArrayVec.{array_vec_len};
ghost use Rattle.console_text.specs.Reading.{tenths_of, sign_bytes, kn_bytes};
ghost use Rattle.console_text.specs.Decimal.{decimal};
ghost use Rattle.console_text.specs.Output.{output_names, line_start, line, row_line, sum_line, no_line, bad_line, line_room};

use crate::decimal::put_number;
use arrayvec::ArrayVec;

pub const LINE_ROOM: usize = 64;

// A line, or what stands of it so far. There is room for every line.
pub type OutputLine = ArrayVec<u8, LINE_ROOM>;

// "time,kind,first,second"
pub fn names_line() -> OutputLine
    ensures { result.items ≡ output_names }
{
    let mut line = OutputLine::new();
    put_text(&mut line, b"time,kind,first,second\n");
    line
}

// T,row,TAG,KN
pub fn row_line(time: u32, tag: u32, reading: u32) -> OutputLine
    ensures { result.items ≡ row_line time tag reading }
{
    let mut line = started(time, b"row", u64::from(tag));
    put_kn(&mut line, reading);
    line.push(b'\n');
    line
}

// T,sum,ROWS,BLOCKS
pub fn sum_line(time: u32, rows: u32, blocks: u32) -> OutputLine
    ensures { result.items ≡ sum_line time rows blocks }
{
    numbers_line(time, b"sum", u64::from(rows), u64::from(blocks))
}

// T,no,REFUSAL,0
pub fn no_line(time: u32, refusal: u32) -> OutputLine
    ensures { result.items ≡ no_line time refusal }
{
    numbers_line(time, b"no", u64::from(refusal), 0)
}

// 0,bad,LINE,0
pub fn bad_line(number: u64) -> OutputLine
    ensures { result.items ≡ bad_line number }
{
    numbers_line(0, b"bad", number, 0)
}

// A line whose second field is a number.
fn numbers_line(time: u32, kind: &[u8], first: u64, second: u64) -> OutputLine
    requires { length kind.now ≤ 3 }
    ensures { result.items ≡ line time kind.now first (decimal second) }
{
    let mut line = started(time, kind, first);
    put_number(&mut line, second);
    line.push(b'\n');
    line
}

// A line's time, kind and first field, each with its comma.
fn started(time: u32, kind: &[u8], first: u64) -> OutputLine
    requires { length kind.now ≤ 3 }
    ensures start { result.items ≡ line_start time kind.now first }
    ensures most { array_vec_len result ≤ 36 }
{
    let mut line = OutputLine::new();
    put_number(&mut line, u64::from(time));
    line.push(b',');
    put_text(&mut line, kind);
    line.push(b',');
    put_number(&mut line, first);
    line.push(b',');
    line
}

// A text at the end of what stands.
pub(crate) fn put_text(line: &mut OutputLine, text: &[u8])
    requires { array_vec_len line.old + length text.now ≤ line_room }
    ensures { line.new.items ≡ line.old.items ++ text.now }
{
    line.try_extend_from_slice(text).unwrap();
}

// A reading in tenths of a kN. (The last digit by `as`, which is proved to fit: `try_from` would need an answer for what cannot be.)
fn put_kn(line: &mut OutputLine, reading: u32)
    requires { array_vec_len line.old + 24 ≤ line_room }
    ensures kn { line.new.items ≡ line.old.items ++ kn_bytes reading }
    ensures most { array_vec_len line.new ≤ array_vec_len line.old + 13 }
{
    let tenths = tenths_of(reading);
    if reading.cast_signed().is_negative() && 0 < tenths {
        line.push(b'-');
    }
    put_number(line, tenths / 10);
    line.push(b'.');
    line.push(b'0' + (tenths % 10) as u8);
}

// A reading's tenths of a kN, its sign aside: half away from zero.
fn tenths_of(reading: u32) -> u64
    ensures { result ≡ tenths_of reading }
{
    let size = reading.cast_signed().unsigned_abs();
    (u64::from(size) + 5) / 10
}
