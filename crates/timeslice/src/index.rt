// The search in the index: from the top level's page down to the block that starts the path. (Level and entry stay two numbers: each step goes to another
// pair, and a struct of both would be taken apart in its first line.)
ghost use Rattle.std.specs.Prelude.{◌≡◌, [], ◌-◌, ◌*◌, ◌≤◌, ◌<◌, min, length};
ghost use Rattle.layout.specs.Sizes.{page_len};
ghost use Rattle.calls.specs.Walk.{entries as entries_of, top_level, last_up_to};
ghost use Rattle.timeslice.specs.Searching.{path_start, pass_over, entry_of, looked_up, descended, searched, OnPage, OnEntry};

use crate::past::Past;
use layout::{PAGE, parts};
use queries::Unsound;

// The block that starts the path, if there is one; how many pages are read, and on each level the page passed, if one is.
// (How many are read stands beside them, counted on the way: to count them in the array would be no plainer, and that these are as many follows only since
// levels fall, which is the theory's.)
#[derive(Clone, Copy)]
pub struct PathStart {
    pub block: Option<u32>,
    pub read: u32,
    pub pages: [Option<u32>; 3],
}

impl PathStart {
    // At a block or at none, with no page passed.
    fn at(block: Option<u32>) -> PathStart
        ensures { result ≡ path_start block [] }
    {
        PathStart {
            block,
            read: 0,
            pages: [None; 3],
        }
    }

    // Page e of level l is passed before the others.
    fn passing(self, l: u32, e: u32) -> PathStart
        requires few { self.read ≤ 2 }
        requires level { l < 3 }
        ensures { result ≡ pass_over l e self }
    {
        let mut pages = self.pages;
        pages[l as usize] = Some(e);
        PathStart {
            read: self.read + 1,
            pages,
            ..self
        }
    }
}

// The entries of a level over the blocks opened, one for each page of the level below: entries beyond are not entries.
fn entries(opened: u32, l: u32) -> u32
    ensures { result ≡ entries_of opened l }
{
    let mut count = opened;
    for _ in 0..l {
        count = count.div_ceil(PAGE);
    }
    count
}

// The lowest level that has all entries on one page.
fn top_level(opened: u32) -> u32
    ensures { result ≡ top_level opened }
{
    if entries(opened, 0) <= PAGE {
        return 0;
    }
    if entries(opened, 1) <= PAGE {
        return 1;
    }
    2
}

// How many entries page e of level l has.
fn on_page(opened: u32, l: u32, e: u32) -> u32
    requires few { opened ≤ 4096 }
    requires e_bound { page_len * e < entries_of opened l }
    ensures { result ≡ min page_len (entries_of opened l - page_len * e) }
{
    PAGE.min(entries(opened, l) - PAGE * e)
}

// The last of a page's entries that is not after t.
fn last_up_to(entries: &[u32], t: u32) -> Option<usize>
    ensures { result ≡ entry_of (last_up_to t (length entries.now) entries.now) }
{
    entries.iter().rposition(|&from| from <= t)
}

impl Past<'_> {
    // The last entry up to the second on page e of level l, counted from 0 on the page, which is a part in the middle of its level.
    fn look_up(&self, l: u32, e: u32) -> Option<u32>
        requires { OnPage self.now l e }
        ensures { result ≡ looked_up self.now l e }
    {
        let count = on_page(self.opened.head.cursor.opened, l, e) as usize;
        let page = parts::page(parts::level(self.opened.store, l), e);
        let last = last_up_to(&page[..count], self.second)?;
        // (By `as`: an entry's number on a page is below 16, and `try_from` would have a way out that nothing takes.)
        Some(last as u32)
    }

    // Below level l, from its entry e: a lower page with no entry up to the second is unsound.
    fn descend(&self, l: u32, e: u32) -> Result<PathStart, Unsound>
        requires { OnEntry self.now l e }
        ensures { result ≡ descended self.now l e }
    {
        if l == 0 {
            return Ok(PathStart::at(Some(e + 1)));
        }
        let below = l - 1;
        let k = self.look_up(below, e).ok_or(Unsound)?;
        let found = self.descend(below, PAGE * e + k)?;
        Ok(found.passing(below, e))
    }

    // From the top page down: no page is read with N = 0, and the top page alone if it has no entry up to the second. (Not compiled into its caller, whose
    // walk is then the slower: a look-back of the year executes 16,896 instructions at b = 8 so, and 17,528 otherwise, counted as rust/count.sh does.)
    #[inline(never)]
    pub(crate) fn search(&self) -> Result<PathStart, Unsound>
        ensures { result ≡ searched self.now }
    {
        let opened = self.opened.head.cursor.opened;
        if opened == 0 {
            return Ok(PathStart::at(None));
        }
        let top = top_level(opened);
        let Some(k) = self.look_up(top, 0) else {
            return Ok(PathStart::at(None).passing(top, 0));
        };
        let found = self.descend(top, k)?;
        Ok(found.passing(top, 0))
    }
}
