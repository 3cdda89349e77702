// The walk over the blocks: a visit stays between two numbers and calls itself; the path goes up by 'up' until 0.
ghost use Rattle.std.specs.Prelude.{◌≡◌};
ghost use Rattle.layout.specs.Address.{Numbered};
ghost use Rattle.calls.specs.Walk.{neighbour as neighbour_of};
ghost use Rattle.timeslice.specs.Reading.{reader_of};
ghost use Rattle.timeslice.specs.Told.{VisitTold, PathTold, Climbs, Space, Gap, Reach, Under};
ghost use Rattle.timeslice.specs.Listed.{VisitListed, ListRoom, InsideListed, InsideRoom};

use crate::Counts;
use crate::past::Past;
use layout::{fields, parts};
use queries::Unsound;

// A path block: its up, its left neighbour, and what is counted with its rows.
#[derive(Clone, Copy)]
pub struct PathBlock {
    pub up: u32,
    pub next: u32,
    pub counts: Counts,
}

// (The two buffers and what is counted in them stay three arguments: a struct of the two would hold two `&mut`, and each contract would have to say that
// it still holds the same two. A link and the two numbers that it lies between stay three too: each visit has another pair, `number, upper` and then
// `lower, number`, and a struct would be made anew for each.)
impl Past<'_> {
    // A visit of a link: 0, which ends it, or a block strictly between lower and upper. The block is listed, and if it closes after the second, the visit
    // goes on inside it. It answers how many blocks are listed then. (Compiled into its callers, since most links lead nowhere or to a closed block. A link
    // is a word of the store, of which 0 is none, as document 01 lays it out.)
    #[cycle(visit)]
    #[inline(always)]
    fn visit(
        &self,
        lower: u32,
        upper: u32,
        number: u32,
        list: &mut [u32],
        listed: u32,
    ) -> Result<u32, Unsound>
        requires { ListRoom self.now lower upper listed list.old }
        ensures { VisitListed self.now lower upper number list.old listed result list.new }
    {
        if number <= lower {
            return if number == 0 {
                Ok(listed)
            } else {
                Err(Unsound)
            };
        }
        if upper <= number {
            return Err(Unsound);
        }
        let block = self.opened.block(number);
        let closed = parts::block_word(block, fields::CLOSED);
        list[listed as usize] = number;
        if closed <= self.second {
            return Ok(listed + 1);
        }
        self.visit_inside(lower, upper, number, list, listed + 1)
    }

    // The visits inside a listed block: of its last child, then of its left. The gap of the two numbers falls at each.
    #[cycle(visit)]
    fn visit_inside(
        &self,
        lower: u32,
        upper: u32,
        number: u32,
        list: &mut [u32],
        listed: u32,
    ) -> Result<u32, Unsound>
        requires { InsideRoom self.now lower upper number listed list.old }
        ensures { InsideListed self.now lower upper number list.old listed result list.new }
    {
        let block = self.opened.block(number);
        let child = parts::block_word(block, fields::CHILD);
        let left = parts::block_word(block, fields::LEFT);
        let after = self.visit(number, upper, child, list, listed)?;
        self.visit(lower, number, left, list, after)
    }

    // A visit whose blocks are listed first; then the rows of those listed are taken.
    fn visit_rows(
        &self,
        lower: u32,
        upper: u32,
        number: u32,
        rows: &mut [u32],
        list: &mut [u32],
        n: Counts,
    ) -> Result<Counts, Unsound>
        requires { Gap self.now lower upper n rows.old list.old }
        ensures { VisitTold self.now lower upper number rows.old list.old n result rows.new list.new }
    {
        let blocks = self.visit(lower, upper, number, list, n.blocks)?;
        let given = self.take_listed(&list[n.blocks as usize..blocks as usize], rows, n.rows)?;
        Ok(Counts {
            rows: given,
            blocks,
            ..n
        })
    }

    // The left neighbour of a path block: its own left if it is closed, else its up's last child. (An up is a word of the store, of which 0 is block 0, as
    // document 01 lays it out: the root of all, which has no words but the head's.)
    fn neighbour(&self, number: u32) -> u32
        requires { Under self.now number }
        ensures { result ≡ neighbour_of (reader_of self.now) number }
    {
        let block = self.opened.block(number);
        if parts::block_word(block, fields::CLOSED) != layout::OPEN {
            return parts::block_word(block, fields::LEFT);
        }
        let up = parts::block_word(block, fields::UP);
        if up == 0 {
            return self.opened.head.cursor.child;
        }
        let above = self.opened.block(up);
        parts::block_word(above, fields::CHILD)
    }

    // A path block is listed and its rows are taken; its up must lie below it.
    fn climb(
        &self,
        number: u32,
        rows: &mut [u32],
        list: &mut [u32],
        n: Counts,
    ) -> Result<PathBlock, Unsound>
        requires numbered { Numbered self.now.opened.head.settings number }
        requires space { Space self.now n rows.old list.old }
        ensures { Climbs self.now rows.old list.old n number result rows.new list.new }
    {
        let block = self.opened.block(number);
        let up = parts::block_word(block, fields::UP);
        if number <= up {
            return Err(Unsound);
        }
        let next = self.neighbour(number);
        list[n.blocks as usize] = number;
        let given = self.take_rows(block, rows, n.rows)?;
        let counts = Counts {
            rows: given,
            blocks: n.blocks + 1,
            ..n
        };
        Ok(PathBlock { up, next, counts })
    }

    // The path from a block up to 0: each block listed with its rows, then its left neighbour visited between its up and itself. (By `while`: it follows a
    // link, counts nothing and has no list to go over. And no `while let`: an up of 0 is a number too, above which the last visit stays.)
    pub(crate) fn path(
        &self,
        number: u32,
        rows: &mut [u32],
        list: &mut [u32],
        n: Counts,
    ) -> Result<Counts, Unsound>
        requires { Reach self.now number n rows.old list.old }
        ensures { PathTold self.now number rows.old list.old n result rows.new list.new }
    {
        let mut at = number;
        let mut counts = n;
        while at != 0 {
            let step = self.climb(at, rows, list, counts)?;
            counts = self.visit_rows(step.up, at, step.next, rows, list, step.counts)?;
            at = step.up;
        }
        Ok(counts)
    }
}
