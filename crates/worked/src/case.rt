// One worked case: NAME.in through the console, against NAME.out.
use crate::System;
use arrayvec::ArrayString;
use console_io::sink::Sink;
use console_text::gather::LINE_MOST;
use model::out::print;
use std::fmt::Write;
use std::fs;
use std::fs::File;
use std::io::Read;
use std::os::fd::AsRawFd;

const STDOUT: i32 = 1;

// A descriptor that gives nothing.
const NO_FILE: i32 = -1;

// A name with the ending `.out` fits a line of `cases`.
const NAME_MOST: usize = LINE_MOST - 4;

// A case's file of this ending, for a name that is text and not too long with it.
pub(crate) fn open(rt: &impl System, name: &[u8], ending: &str) -> Option<File> {
    if NAME_MOST < name.len() {
        return None;
    }
    let name = str::from_utf8(name).ok()?;
    let mut path = ArrayString::<LINE_MOST>::new();
    write!(path, "{name}.{ending}").ok()?;
    fs::open(rt, path.as_str()).ok()
}

// A case's name as it stands in `cases`: its bytes may be no text.
pub(crate) fn show_name(name: &[u8]) {
    io::write_all(STDOUT, name);
}

// One line of a file, counted from 1: its bytes as they are, which may be no text.
pub(crate) fn show_line(file: Option<File>, number: u64) {
    if let Some(file) = file {
        let mut bytes = file.bytes().map_while(|byte| byte.ok());
        // The lines before it are read, if so many end.
        if (1..number).all(|_| bytes.any(|byte| byte == b'\n')) {
            for byte in bytes {
                io::write_all(STDOUT, &[byte]);
                if byte == b'\n' {
                    return;
                }
            }
        }
    }
    print("(no such line)\n");
}

// The console runs once more, and of its lines that one alone is written.
fn show_printed(input: Option<File>, number: u64) {
    let pick = Sink::Pick(STDOUT, number);
    let left = match input {
        Some(mut input) => console_io::run_over(&mut input, pick),
        // What can't be opened again gives nothing, as an empty input.
        None => console_io::run(NO_FILE, pick),
    };
    if let Sink::Pick(_, 1..) = left {
        print("(no such line)\n");
    }
}

// Whether the case of this name agrees; if not, it says so.
pub(crate) fn agrees(rt: &impl System, name: &[u8]) -> bool {
    let Some(mut input) = open(rt, name, "in") else {
        show_name(name);
        print(": its .in file is missing\n");
        return false;
    };
    let Some(expected) = open(rt, name, "out") else {
        show_name(name);
        print(": its .out file is missing\n");
        return false;
    };
    let compared = console_io::run_over(&mut input, Sink::Compare(expected.as_raw_fd(), 0));
    let difference = compared.first_difference();
    // Both are opened again below, where no more files may be open at a time.
    drop(input);
    drop(expected);
    let Some(line) = difference else {
        return true;
    };
    show_name(name);
    print(format_args!(": the output differs at line {line}\nexpected: "));
    show_line(open(rt, name, "out"), line);
    print("printed:  ");
    show_printed(open(rt, name, "in"), line);
    false
}
