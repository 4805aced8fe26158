// Marks of blocks, with a flag for each page of 1,024 blocks, so that pages without a mark are passed in one step.

ghost use Rattle.std.specs.Prelude.{◌≡◌, ◌≤◌, IfOk, false, length, replicate, slice_set, true};
ghost use Rattle.trick_access.specs.Reached.{FindsLast, HasPages, page_of as page_of_block};

use std::alloc::{AllocError, Global};
use std::marker::Model;

// How many blocks a page has.
const PAGE: usize = 1024;

// Which blocks are marked. Contracts see the list of the marks.
#[derive(Drop)]
pub struct Marks {
    marks: Vec<bool>,
    pages: Vec<bool>,
}

impl Model for Marks {
    ghost use Rattle.std.specs.Prelude.{Bool, List};
    ghost use Rattle.trick_access.specs.Reached.{HasPages};

    ghost Value = { List Bool };

    ghost view = { λ m. m.marks.items };

    ghost invariant = { λ m. HasPages m.marks.items m.pages.items };
}

impl Marks {
    // No mark, over so many blocks.
    pub fn new(alloc: Global, blocks: usize) -> Result<Self, AllocError>
        ensures { IfOk result (λ m. m ≡ replicate blocks false) }
    {
        let marks = vec![in alloc; false; blocks]?;
        let pages = vec![in alloc; false; page_of(blocks) + 1]?;
        Ok(Marks { marks, pages })
    }

    // Marks a block.
    pub fn mark(&mut self, block: usize)
        ensures { self.new ≡ slice_set self.old block true }
    {
        if block < self.marks.len() {
            self.marks[block] = true;
            self.pages[page_of(block)] = true;
        }
    }

    // The last marked block below this one.
    pub fn last_below(&self, left: usize) -> Option<usize>
        requires { left ≤ length self.now }
        ensures { FindsLast self.now left result }
    {
        last_below(&self.marks, &self.pages, left)
    }
}

// The page of a block.
fn page_of(block: usize) -> usize
    ensures { result ≡ page_of_block block }
{
    block / PAGE
}

// Looks at a page's flag first, and at its marks only where the flag stands.
fn last_below(marks: &[bool], pages: &[bool], left: usize) -> Option<usize>
    requires pages { HasPages marks.now pages.now }
    requires left { left ≤ length marks.now }
    ensures { FindsLast marks.now left result }
{
    let mut end = left;
    while end > 0 {
        let block = end - 1;
        let page = page_of(block);
        if !pages[page] {
            end = page * PAGE;
        } else if marks[block] {
            return Some(block);
        } else {
            end = block;
        }
    }
    None
}
