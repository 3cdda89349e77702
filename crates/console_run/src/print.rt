// The output lines for what is said, one at a time.
ghost use Rattle.std.specs.Prelude.{◌≡◌, get_or, []};
ghost use Rattle.console_run.specs.Console.{told, missing, said_lines};
ghost use Rattle.console_run.specs.PrintLaws.{line_count, slice_line};

use crate::turn::{Said, Stage};
use console_text::print;
use console_text::print::OutputLine;
pub use layout::ROW_LEN;

// At the end of the input: one of the first three lines is missing, or nothing is.
pub fn at_end(stage: Stage) -> Said
    ensures { told result ≡ missing stage }
{
    match stage {
        Stage::SettingsNames | Stage::Settings | Stage::ChangeNames => Said::Bad,
        Stage::Changes | Stage::Over => Said::Nothing,
    }
}

// How many lines are printed.
pub fn line_count(said: Said) -> u64
    ensures { result ≡ line_count (told said) }
{
    match said {
        Said::Nothing => 0,
        Said::Bad | Said::No(_, _) => 1,
        Said::Slice(_, rows, _) => u64::from(rows) + 1,
    }
}

// A word of the row buffer; 0 beyond its end.
fn word(rows: &[u32], i: usize) -> u32
    ensures { result ≡ get_or rows.now i 0 }
{
    rows.get(i).copied().unwrap_or(0)
}

// A look-back's i-th row, or its sum after them.
fn slice_line(time: u32, count: u32, blocks: u32, rows: &[u32], i: u64) -> OutputLine
    ensures { result.items ≡ slice_line time count blocks rows.now i }
{
    if u64::from(count) <= i {
        return print::sum_line(time, count, blocks);
    }
    let at = ROW_LEN * i as usize;
    let tag = word(rows, at);
    let reading = word(rows, at + 1);
    print::row_line(time, tag, reading)
}

// The i-th line, counted from 0, of what is said of the input line `number`; nothing past the last.
#[tactic(auto, using(crate::specs::PrintLaws::lines_of_said))]
pub fn line_at(said: Said, number: u64, rows: &[u32], i: u64) -> OutputLine
    ensures { result.items ≡ get_or (said_lines (told said) number rows.now) i [] }
{
    if line_count(said) <= i {
        return OutputLine::new();
    }
    match said {
        Said::Nothing => OutputLine::new(),
        Said::Bad => print::bad_line(number),
        Said::No(time, refusal) => print::no_line(time, refusal),
        Said::Slice(time, count, blocks) => slice_line(time, count, blocks, rows, i),
    }
}
