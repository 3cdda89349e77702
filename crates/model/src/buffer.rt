// What a look-back or a window is lent for rows or for its list: marks, so that it is seen what was written.
ghost use Rattle.std.specs.Prelude.{◌≡◌, take};
ghost use Rattle.model.specs.Marks.{AreMarks};

use crate::refusal::Refusal;
use crate::words::mark;
use std::array;

// Longer than any part that is lent of it.
pub type Buffer = [u32; 640];

// Each word is the mark of its place: a buffer, or the words of an answer.
pub(crate) fn marked<const N: usize>() -> [u32; N]
    ensures { AreMarks result }
{
    array::from_fn(mark)
}

// The first words of a buffer: as many as are asked for, or all that there are.
pub fn lent(buffer: &mut [u32], length: usize) -> &mut [u32]
    ensures { result.now ≡ take length buffer.old }
{
    let end = length.min(buffer.len());
    &mut buffer[..end]
}

// From a word on all are marks.
pub(crate) fn is_marked_from(words: &[u32], from: usize) -> bool {
    words
        .iter()
        .enumerate()
        .skip(from)
        .all(|(place, word)| *word == mark(place))
}

// A refused query leaves all of a buffer; but one that finds the store unsound fills what it was lent of it with zeros.
pub(crate) fn is_left(words: &[u32], refusal: Refusal, length: usize) -> bool {
    let zeros = if refusal == Refusal::Unsound {
        length
    } else {
        0
    };
    words.iter().take(zeros).all(|word| *word == 0) && is_marked_from(words, zeros)
}
