// THE CONSOLE OVER READERS AND DESCRIPTORS: input is read in chunks and fed byte by byte, and each output line is written, or compared with an expected one.
// For the bytes that the reads leave in their buffer, the lines handed to `Sink::emit` are the console's output (specs/Session.antt). What the
// operating system reads and writes no contract can say.
#![tactic(auto)]

mod descriptor;
pub mod sink;

ghost use Rattle.std.specs.Prelude.{◌≡◌};
ghost use Rattle.console_run.specs.Console.{told, said_lines};
ghost use Rattle.console_run.specs.Feed.{is_over, finish_lines};
ghost use Rattle.console_io.specs.Sinks.{Sent};
ghost use Rattle.console_io.specs.Session.{running, Begins, FedByte, FedBytes, FedRead, ReadSome, ReadAll, Ran};

use console_run::feed::{COUNT_MOST, Console};
use console_run::lent::{LIST, LentWords, ROWS, STORE};
use console_run::print;
use console_run::turn::{Said, Stage};
use descriptor::Descriptor;
use sink::Sink;
use std::io::Read;

// A run so far.
#[derive(Drop)]
struct Session {
    console: Console,
    store: [u32; STORE],
    rows: [u32; ROWS],
    list: [u32; LIST],
    sink: Sink,
}

// Every line of what is said. (By their numbers: a row has its place in the buffer by its number.)
fn print_said(sink: Sink, said: Said, number: u64, rows: &[u32]) -> Sink
    ensures { Sent sink (said_lines (told said) number rows.now) result }
{
    let mut next = sink;
    for i in 0..print::line_count(said) {
        let line = print::line_at(said, number, rows, i);
        next = next.emit(line.as_slice());
    }
    next
}

impl Session {
    // Before the first byte: the names line goes out.
    fn new(sink: Sink) -> Session
        ensures { Begins sink (running result) }
    {
        Session {
            console: Console::new(),
            store: [0; STORE],
            rows: [0; ROWS],
            list: [0; LIST],
            sink: sink.emit(console_text::print::names_line().as_slice()),
        }
    }

    fn is_over(&self) -> bool
        ensures { result ≡ is_over self.now.console.stage }
    {
        matches!(self.console.stage, Stage::Over)
    }

    // One byte.
    fn feed(&mut self, byte: u8)
        ensures { FedByte byte (running self.old) (running self.new) }
    {
        let mut lent = LentWords {
            store: &mut self.store,
            rows: &mut self.rows,
            list: &mut self.list,
        };
        let step = self.console.feed(byte, &mut lent);
        self.sink = print_said(self.sink, step.said, step.number, &self.rows);
    }

    // Every byte of a part of the input, until the run is over.
    fn feed_all(&mut self, bytes: &[u8])
        ensures { FedBytes bytes.now (running self.old) (running self.new) }
    {
        for &byte in bytes {
            if self.is_over() {
                return;
            }
            self.feed(byte);
        }
    }

    // What a read that answered `got` left at the start of the chunk, and whether it left any: only a read of no byte is the end of the input.
    fn feed_read(&mut self, got: usize, chunk: &[u8]) -> bool
        ensures { FedRead got chunk.now (running self.old) result (running self.new) }
    {
        let n = got.min(chunk.len());
        self.feed_all(&chunk[..n]);
        n != 0
    }

    // One read into the chunk, and what it left there is fed: whether it left any. A read that fails ends the input, as its end does. (What a read
    // answers no contract can say; that what is fed is what the very chunk holds after it, this one says.)
    fn read_some<R: Read>(&mut self, input: &mut R, chunk: &mut [u8]) -> bool
        ensures { ReadSome chunk.new (running self.old) result (running self.new) }
    {
        let got = input.read(chunk).unwrap_or(0);
        self.feed_read(got, chunk)
    }

    // The whole input. Nothing says that an input ends, so the reads are counted up to a number that no input uses up.
    #[tactic(auto, using(crate::specs::SessionLaws::read_none, crate::specs::SessionLaws::read_next))]
    fn read_all<R: Read>(&mut self, input: &mut R)
        ensures { ReadAll (running self.old) (running self.new) }
    {
        let mut chunk = io::buffer();
        for _ in 0..COUNT_MOST {
            if self.is_over() {
                return;
            }
            if !self.read_some(input, &mut chunk) {
                return;
            }
        }
    }

    // The last line, which may lack its newline; then a line that is missing.
    fn finish(&mut self) -> Sink
        ensures { Sent self.old.sink (finish_lines (running self.old).state) result }
    {
        let mut lent = LentWords {
            store: &mut self.store,
            rows: &mut self.rows,
            list: &mut self.list,
        };
        let step = self.console.last(&mut lent);
        let printed = print_said(self.sink, step.said, step.number, &self.rows);
        let console = self.console;
        let missing = print::at_end(console.stage);
        print_said(printed, missing, console.number, &self.rows)
    }
}

// The console's run over all that a reader gives. A read that fails ends it, as the input's end does.
pub fn run_over<R: Read>(input: &mut R, sink: Sink) -> Sink
    ensures { Ran sink result }
{
    let mut session = Session::new(sink);
    session.read_all(input);
    session.finish()
}

// The console's run over all that the descriptor `input` gives.
pub fn run(input: i32, sink: Sink) -> Sink
    ensures { Ran sink result }
{
    run_over(&mut Descriptor(input), sink)
}
