// THE WORKED CASES (data/README.md): the file `cases` names each case on a line of its own. The console's run over NAME.in must print NAME.out, byte
// for byte, and the windows of NAME.windows, if it is there, must give its rows. A case that does not agree is told with the first line that differs.
#![tactic(auto)]

mod case;
mod windows;

use arrayvec::ArrayVec;
use console_text::gather::LINE_MOST;
use model::out::print;
use std::fs;
use std::fs::File;
use std::io::Read;
use std::rt::Files;

// What the cases need of the system: files. (What they say goes to standard output by `print`: where a part of it can't be written, the rest still is.)
trait System: Files<File = File> {}

impl System for HostRuntime {}

// The cases so far: whether there is any, whether one has windows, and whether all agree.
#[derive(Clone, Copy)]
struct Tally {
    any: bool,
    any_windows: bool,
    all_agree: bool,
}

impl Tally {
    // The line is complete, its first bytes are these: a case, unless it is empty.
    fn take(&mut self, rt: &impl System, name: &[u8]) {
        if name.is_empty() {
            return;
        }
        self.any = true;
        let mut agree = case::agrees(rt, name);
        if let Some(windows_agree) = windows::agree(rt, name) {
            self.any_windows = true;
            agree &= windows_agree;
        }
        self.all_agree &= agree;
    }
}

fn run(rt: &impl System) {
    let Ok(cases) = fs::open(rt, "cases") else {
        return print("the file cases is missing\n");
    };
    let mut tally = Tally {
        any: false,
        any_windows: false,
        all_agree: true,
    };
    // Of a line of more bytes than a name may have, the first are told.
    let mut name = ArrayVec::<u8, LINE_MOST>::new();
    for byte in cases.bytes().map_while(|byte| byte.ok()) {
        if byte == b'\n' {
            tally.take(rt, name.as_slice());
            name.clear();
        } else if name.len() < LINE_MOST {
            name.push(byte);
        }
    }
    tally.take(rt, name.as_slice());
    if !tally.any {
        return print("the file cases names no case\n");
    }
    if !tally.any_windows {
        return print("no case has a file of windows\n");
    }
    if tally.all_agree {
        print("every worked case agrees\n");
    }
}

fn main(rt: HostRuntime) {
    run(&rt);
}
