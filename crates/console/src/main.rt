// THE CONSOLE PROGRAM (document 01, "The console program"): standard input to standard output.
#![tactic(auto)]

use console_io::sink::Sink;
use std::os::fd::AsRawFd;

fn main(rt: HostRuntime) {
    console_io::run_over(&mut rt.stdin(), Sink::Write(rt.stdout().as_raw_fd()));
}
