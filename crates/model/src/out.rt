// What a test program prints goes to the standard output.
use std::fmt;
use std::fmt::{Display, Write};

const STDOUT: i32 = 1;

#[derive(Clone, Copy)]
struct Out;

// A write that fails is seen by whoever compares what was printed.
impl Write for Out {
    fn write_str(&mut self, text: &str) -> fmt::Result {
        io::write_all(STDOUT, text.as_bytes());
        Ok(())
    }
}

pub fn print<T: Display + Drop>(told: T) {
    let _ = write!(Out, "{told}");
}
