// How answers and stores are printed.
use crate::script::WORDS;
use layout::head::Head;
use layout::refusal::Refusal;
use std::fmt;

// An answer: the next head's own words, or the refusal.
#[derive(Clone, Copy)]
pub struct Told(pub Result<Head, Refusal>);

// The head, the directory and the opened blocks of a store, a line each. With 16 tags and b = 4 the directory lies from word 4,384 on, and the
// blocks, of 28 words, behind it.
#[derive(Clone, Copy)]
pub struct Shown<'a>(pub &'a [u32; WORDS]);

// Words of a store, each with a blank before it.
#[derive(Clone, Copy)]
struct Words<'a>(&'a [u32]);

impl fmt::Display for Told {
    fn fmt<W: fmt::Write>(&self, f: &mut fmt::Formatter<W>) -> fmt::Result {
        match self.0 {
            Ok(h) => {
                let k = h.cursor;
                writeln!(
                    f,
                    "done {} {} {} {} {}",
                    k.opened, k.clock, k.fill, k.child, k.right
                )
            }
            Err(refusal) => writeln!(f, "refused {}", refusal.number()),
        }
    }
}

impl<'a> fmt::Display for Words<'a> {
    fn fmt<W: fmt::Write>(&self, f: &mut fmt::Formatter<W>) -> fmt::Result {
        for word in self.0 {
            write!(f, " {word}")?;
        }
        Ok(())
    }
}

impl<'a> fmt::Display for Shown<'a> {
    fn fmt<W: fmt::Write>(&self, f: &mut fmt::Formatter<W>) -> fmt::Result {
        let store = self.0;
        writeln!(f, "head{}", Words(&store[..16]))?;
        writeln!(f, "directory{}", Words(&store[4384..4400]))?;
        let opened = store[5] as usize;
        for (n, block) in (1u32..).zip(store[4400..].chunks_exact(28)).take(opened) {
            writeln!(f, "block {n}{}", Words(block))?;
        }
        Ok(())
    }
}
