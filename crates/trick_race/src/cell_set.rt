ghost use Rattle.std.specs.Prelude.{◌≡◌, ℕ, ◌+◌, ◌-◌, ◌^◌, ◌<◌, ◌≤◌, ◌||◌, false, IfOk, IsTrue, [], ◌∷◌, length, replicate};
ghost use Rattle.trick_lang.specs.Access.{is_in};
ghost use Rattle.trick_race.specs.Accesses.{has as has_cell, has_from, has_some, IsInOrder};

use std::alloc::{AllocError, Global};
use std::marker::Model;
use trick_lang::{Cell, CellRange};

// A set of the cells of a program: for each cell whether it is in.
#[derive(Drop)]
pub(crate) struct CellSet {
    marks: Vec<bool>,
}

impl Model for CellSet {
    ghost use Rattle.std.specs.Prelude.{List, Bool};

    ghost Value = { List Bool };

    ghost view = { λ set. set.marks.items };
}

// Marks the cells of a range.
fn mark(marks: &mut Vec<bool>, range: CellRange)
    requires long { range.first.0 ≤ range.last.0 }
    requires there { range.last.0 < length marks.old.items }
    ensures length { length marks.new.items ≡ length marks.old.items }
    ensures marked { (c : ℕ) → has_cell marks.new.items c ≡ (is_in (range ∷ []) c || has_cell marks.old.items c) }
{
    for cell in range.first.0 as usize..range.last.0 as usize + 1 {
        marks[cell] = true;
    }
}

impl CellSet {
    // No cells, of so many.
    pub fn new(alloc: Global, cells: usize) -> Result<Self, AllocError>
        ensures { IfOk result (λ set. set ≡ replicate cells false) }
    {
        Ok(CellSet {
            marks: vec![in alloc; false; cells]?,
        })
    }

    // Whether the cell is in.
    pub fn has(&self, cell: usize) -> bool
        ensures { result ≡ has_cell self.now cell }
    {
        cell < self.marks.len() && self.marks[cell]
    }

    // Puts in the cells of a range.
    fn add_range(&mut self, range: CellRange)
        requires long { range.first.0 ≤ range.last.0 }
        requires there { range.last.0 < length self.old }
        ensures length { length self.new ≡ length self.old }
        ensures added { (c : ℕ) → has_cell self.new c ≡ (is_in (range ∷ []) c || has_cell self.old c) }
    {
        mark(&mut self.marks, range);
    }

    // Puts in the cells of ranges that are in order.
    pub fn add(&mut self, ranges: &[CellRange])
        requires { IsInOrder (length self.old) ranges.now }
        ensures length { length self.new ≡ length self.old }
        ensures added { (c : ℕ) → has_cell self.new c ≡ (is_in ranges.now c || has_cell self.old c) }
    {
        for range in ranges {
            self.add_range(*range);
        }
    }

    // Whether one of the cells from the first to the last is in.
    pub fn has_some(&self, first: usize, last: usize) -> bool
        requires { last < 2 ^ 35 }
        ensures { result ≡ has_from self.now first (last + 1 - first) }
    {
        for cell in first..last + 1 {
            if self.has(cell) {
                return true;
            }
        }
        false
    }
}
