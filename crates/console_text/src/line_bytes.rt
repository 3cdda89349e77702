// The bytes of a line, in the room of the longest: a value that may be copied, as the kit's `ArrayVec` may not.
ghost use Rattle.std.specs.Prelude.{◌≡◌, ◌<◌, ◌↔◌, [], ◌∷◌, ◌++◌, length, IsOk, OnOk, OnErr};
ghost use Rattle.console_text.specs.Lines.{line_most};

use crate::gather::LINE_MOST;
use arrayvec::CapacityError;
use std::marker::Model;

#[derive(Clone, Copy)]
pub(crate) struct LineBytes {
    // the line's bytes, and zeros behind them
    room: [u8; LINE_MOST],
    len: usize,
}

impl Model for LineBytes {
    ghost use Rattle.std.specs.Prelude.{◌≡◌, ◌≤◌, ◌-◌, ℕ, List, length, take, drop, replicate};
    ghost use Rattle.std.proofs.Common.{length-take-le};
    ghost use Rattle.console_text.specs.Lines.{line_most, padded};
    ghost use Rattle.console_text.specs.HeldLaws.{padded_take};

    ghost Value = { List ℕ };

    ghost view = { λ l. take l.len l.room };

    ghost invariant = { λ l. (l.len ≤ length l.room) × (drop l.len l.room ≡ replicate (line_most - l.len) 0) };

    ghost inverse = { λ bytes. record { room = padded bytes; len = length bytes } };

    ghost inverse_ok = { λ l h i. record {
      room = padded_take l.len l.room h.0 h.1 i;
      len = length-take-le l.len l.room h.0 i;
    } };
}

impl LineBytes {
    // None yet.
    pub(crate) fn new() -> LineBytes
        ensures { result ≡ [] }
    {
        LineBytes {
            room: [0; LINE_MOST],
            len: 0,
        }
    }

    // One byte more, if there is room for it.
    pub(crate) fn try_push(&mut self, byte: u8) -> Result<(), CapacityError>
        ensures variant { IsOk result ↔ (length self.old < line_most) }
        ensures ok { OnOk result (self.new ≡ self.old ++ byte ∷ []) }
        ensures err { OnErr result (self.new ≡ self.old) }
    {
        if LINE_MOST <= self.len {
            return Err(CapacityError::new(()));
        }
        self.room[self.len] = byte;
        self.len += 1;
        Ok(())
    }

    // They alone, without the zeros.
    pub(crate) fn as_slice(&self) -> &[u8]
        ensures { result.now ≡ self.now }
    {
        &self.room[..self.len]
    }
}
