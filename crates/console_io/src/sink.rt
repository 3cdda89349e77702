// Where output lines go.
ghost use Rattle.std.specs.Prelude.{◌≡◌, ◌-◌};
ghost use Rattle.console_io.specs.Sinks.{Emitted, FirstDifference};

use console_run::feed::next_number;

#[derive(Clone, Copy)]
pub enum Sink {
    // written to a descriptor
    Write(i32),
    // compared with what a descriptor gives: so many lines were equal
    Compare(i32, u64),
    // this line, counted from 1, was not as expected
    Differs(u64),
    // one line alone is written to a descriptor: the one that is so many lines on, 1 being the next
    Pick(i32, u64),
}

// The next byte that a descriptor gives; none at its end.
pub fn next_byte(fd: i32) -> Option<u8> {
    let mut next = [0u8; 1];
    if io::read_full(fd, &mut next) < 1 {
        return None;
    }
    Some(next[0])
}

fn gives_all(fd: i32, bytes: &[u8]) -> bool {
    bytes.iter().all(|&byte| next_byte(fd) == Some(byte))
}

// A line for a sink that picks: how many are left to come after it.
fn pass(fd: i32, left: u64, line: &[u8]) -> u64
    ensures { result ≡ left - 1 }
{
    if left == 1 {
        io::write_all(fd, line);
    }
    left.saturating_sub(1)
}

impl Sink {
    // At the end of a compared run: the first line, counted from 1, that differs, be it one that was expected and did not come.
    #[tactic(auto, using(crate::specs::SinkLaws::differences))]
    pub fn first_difference(self) -> Option<u64>
        ensures { FirstDifference self result }
    {
        match self {
            Sink::Write(_) => None,
            Sink::Compare(fd, equal) => {
                next_byte(fd)?;
                Some(next_number(equal))
            }
            Sink::Differs(line) => Some(line),
            Sink::Pick(_, _) => None,
        }
    }

    // One line goes out.
    #[tactic(auto, using(crate::specs::SinkLaws::emits))]
    pub(crate) fn emit(self, line: &[u8]) -> Sink
        ensures { Emitted line.now self result }
    {
        match self {
            Sink::Write(fd) => {
                io::write_all(fd, line);
                self
            }
            Sink::Compare(fd, equal) => {
                let lines = next_number(equal);
                if gives_all(fd, line) {
                    Sink::Compare(fd, lines)
                } else {
                    Sink::Differs(lines)
                }
            }
            Sink::Differs(_) => self,
            Sink::Pick(fd, left) => Sink::Pick(fd, pass(fd, left, line)),
        }
    }
}
