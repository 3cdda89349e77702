// An open descriptor as a reader. It gives a byte at a time: `io::read_full` waits until all that it is lent is full, and a line is answered when it
// stands, not later.
use std::io::Read;

#[derive(Clone, Copy)]
pub(crate) struct Descriptor(pub(crate) i32);

impl Read for Descriptor {
    fn read(&mut self, buf: &mut [u8]) -> std::io::Result<usize> {
        if buf.is_empty() {
            return Ok(0);
        }
        Ok(io::read_full(self.0, &mut buf[..1]))
    }
}
