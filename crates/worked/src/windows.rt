// The windows of a worked case: NAME.windows, if there is one, over the store that NAME.in leaves. After its names line each window is asked on a line
// of its own, with how many rows it must give or its refusal; behind it stand those rows, each as the input line that set it or gave its reading.
use crate::{System, case};
use console_run::feed::{Console, next_number};
use console_run::lent::{LIST, LentWords, ROWS, STORE};
use console_text::gather::Gather;
use console_text::parse;
use console_text::parse::Line;
use layout::ROW_LEN;
use layout::refusal::Refusal;
use model::out::print;
use std::fmt;
use std::fs::File;
use std::io::Read;
use std::ops::Range;

// What the register gave where the file has something else.
#[derive(Clone, Copy)]
enum Given {
    // so many rows more, of a window that is asked
    More(usize),
    // so many rows, or this refusal
    Answer(Result<u32, Refusal>),
    // the window's row here: since, tag, and its reading's word
    Row(u32, u32, u32),
    // no line that can stand here
    NoLine,
}

// An answer as a line has it: its rows, and its refusal, each 0 for none. (It is compared so: a line may give rows and a refusal, or a number that
// is no refusal's, which no answer is.)
fn numbers(answer: Result<u32, Refusal>) -> (u32, u32) {
    match answer {
        Ok(rows) => (rows, 0),
        Err(refusal) => (0, refusal.number()),
    }
}

impl fmt::Display for Given {
    fn fmt<W: fmt::Write>(&self, f: &mut fmt::Formatter<W>) -> fmt::Result {
        match self {
            Given::More(left) => write!(f, "{left} rows more, of a window that is asked"),
            Given::Answer(answer) => {
                let (rows, refusal) = numbers(*answer);
                write!(f, "{rows} rows, refusal {refusal}")
            }
            Given::Row(since, tag, reading) => {
                write!(f, "since {since}, tag {tag}, the reading's word {reading}")
            }
            Given::NoLine => write!(f, "(no line of a window or a row)"),
        }
    }
}

// Where a file of windows and the register part: the line that does not agree, counted from 1, or the one after the last where something is missing.
#[derive(Clone, Copy)]
struct Difference {
    line: u64,
    given: Given,
}

// A store that is asked: so many lines agree, and of the rows that the last window gave these, by number, are still to be compared.
#[derive(Drop)]
struct Asked<'a> {
    store: &'a [u32],
    rows: [u32; ROWS],
    lines: u64,
    left: Range<u32>,
}

impl Asked<'_> {
    // A window must give so many rows, or this refusal.
    fn take_window(&mut self, line: &[u8]) -> Result<(), Given> {
        let (first, last, count, refusal) = parse::parse_settings(line).ok_or(Given::NoLine)?;
        let given = window::window(self.store, first, last, &mut self.rows);
        if numbers(given) != (count, refusal) {
            return Err(Given::Answer(given));
        }
        self.left = 0..given.unwrap_or(0);
        Ok(())
    }

    // The next of the rows given must be this one.
    fn take_row(&mut self, line: &[u8]) -> Result<(), Given> {
        let Some(Line::Set(since, tag, reading) | Line::Update(since, tag, reading)) =
            parse::parse_change(line) else {
            return Err(Given::NoLine);
        };
        let row = self.left.next().ok_or(Given::NoLine)?;
        let mut rows = self.rows.chunks_exact(ROW_LEN);
        let Some([given_tag, given_reading, given_since]) = rows.nth(row as usize) else {
            return Err(Given::NoLine);
        };
        if (*given_since, *given_tag, *given_reading) != (since, tag, reading) {
            return Err(Given::Row(*given_since, *given_tag, *given_reading));
        }
        Ok(())
    }

    // A line's text: the names, a window or a row.
    fn take_text(&mut self, text: &[u8]) -> Result<(), Given> {
        if self.lines == 0 {
            if text == b"first,last,rows,refusal".as_slice() {
                return Ok(());
            }
            return Err(Given::NoLine);
        }
        if self.left.is_empty() {
            return self.take_window(text);
        }
        self.take_row(text)
    }

    // The next line must agree.
    fn take(&mut self, line: &Gather) -> Result<(), Difference> {
        let number = next_number(self.lines);
        let taken = match line.text() {
            Some(text) => self.take_text(text),
            None => Err(Given::NoLine),
        };
        self.lines = number;
        taken.map_err(|given| Difference {
            line: number,
            given,
        })
    }
}

// Feeds the console a whole input. What it prints is compared elsewhere (case.rt).
fn play(input: File, store: &mut [u32; STORE]) {
    let mut rows = [0u32; ROWS];
    let mut list = [0u32; LIST];
    let mut lent = LentWords {
        store,
        rows: &mut rows,
        list: &mut list,
    };
    let mut console = Console::new();
    for byte in input.bytes().map_while(|byte| byte.ok()) {
        console.feed(byte, &mut lent);
    }
    console.last(&mut lent);
}

// Every line of a file of windows must agree; there is one window at least, and no row of the last is missing.
fn compare(windows: File, store: &[u32]) -> Result<(), Difference> {
    let mut asked = Asked {
        store,
        rows: [0; ROWS],
        lines: 0,
        left: 0..0,
    };
    let mut line = Gather::new();
    for byte in windows.bytes().map_while(|byte| byte.ok()) {
        if let Some(complete) = line.feed(byte) {
            asked.take(&complete)?;
        }
    }
    if line.left_over() {
        asked.take(&line)?;
    }
    if asked.left.is_empty() && 1 < asked.lines {
        return Ok(());
    }
    Err(Difference {
        line: next_number(asked.lines),
        given: Given::More(asked.left.len()),
    })
}

// Whether the windows of the case of this name agree, if it has any; if they don't, it says so.
pub(crate) fn agree(rt: &impl System, name: &[u8]) -> Option<bool> {
    let windows = case::open(rt, name, "windows")?;
    let mut store = [0u32; STORE];
    if let Some(input) = case::open(rt, name, "in") {
        play(input, &mut store);
    }
    let Err(Difference { line, given }) = compare(windows, &store) else {
        return Some(true);
    };
    case::show_name(name);
    print(format_args!(": its windows differ at line {line}\nexpected: "));
    case::show_line(case::open(rt, name, "windows"), line);
    print(format_args!("given:    {given}\n"));
    Some(false)
}
