// The input's lines from its bytes, one byte at a time. A caller reads chunks of any length and feeds each byte: a newline gives the line that it
// completes. What is left at the end of the input is a line if it is not empty.
ghost use Rattle.std.specs.Prelude.{◌≡◌, MatchOption};
ghost use Rattle.console_text.specs.Lines.{Text, whole, too_long, new_line, left_over, grown, fed_answer, fed_next};

use crate::line_bytes::LineBytes;
use std::marker::Model;

pub const LINE_MOST: usize = 80;

// A line so far.
#[derive(Clone, Copy)]
pub struct Gather {
    // its bytes; none where it has more than LINE_MOST
    bytes: Option<LineBytes>,
}

impl Model for Gather {
    ghost use Rattle.console_text.specs.Lines.{Text, held, holding};
    ghost use Rattle.console_text.specs.HeldLaws.{holding_held};

    ghost Value = { Text };

    ghost view = { λ g. held g.bytes };

    ghost inverse = { λ text. record { bytes = holding text } };

    ghost inverse_ok = { λ g h i. record { bytes = holding_held g.bytes i } };
}

impl Gather {
    // Before a line's first byte.
    pub fn new() -> Gather
        ensures { result ≡ new_line }
    {
        Gather {
            bytes: Some(LineBytes::new()),
        }
    }

    // The next byte. A newline gives the line that is complete, and a new one begins.
    pub fn feed(&mut self, byte: u8) -> Option<Gather>
        ensures answer { result ≡ fed_answer self.old byte }
        ensures next { self.new ≡ fed_next self.old byte }
    {
        if byte == b'\n' {
            let line = *self;
            *self = Gather::new();
            return Some(line);
        }
        self.push(byte);
        None
    }

    // One byte more of the line.
    fn push(&mut self, byte: u8)
        ensures { self.new ≡ grown self.old byte }
    {
        if let Some(bytes) = &mut self.bytes {
            if bytes.try_push(byte).is_err() {
                self.bytes = None;
            }
        }
    }

    // At the end of the input: there is a last line, which lacks its newline.
    pub fn left_over(&self) -> bool
        ensures { result ≡ left_over self.now }
    {
        self.bytes
            .as_ref()
            .is_none_or(|bytes| !bytes.as_slice().is_empty())
    }

    // The line's bytes; none where they are too many.
    pub fn text(&self) -> Option<&[u8]>
        ensures { MatchOption result (self.now ≡ too_long) (λ text. self.now ≡ whole text.now) }
    {
        self.bytes.as_ref().map(|bytes| bytes.as_slice())
    }
}
