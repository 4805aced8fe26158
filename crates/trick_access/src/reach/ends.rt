ghost use Rattle.std.specs.Prelude.{◌≡◌, ◌+◌, ◌++◌, ◌<◌, ◌≤◌, ◌-◌, ◌^◌, Bool, IfOk, None, length, replicate, suc, ℕ};
ghost use Rattle.trick_lang.specs.Value.{origin};
ghost use Rattle.trick_access.specs.Reached.{is_reached, larger as larger_of, noted_one, range as range_of_cells, spans};
ghost use Rattle.trick_lang.specs.Access.{range_of};
ghost use Rattle.trick_access.specs.Reached.{IsBegun};
ghost use Rattle.trick_lang.specs.TreeOf.{spot_of};

use std::alloc::{AllocError, Global};
use std::marker::Model;
use trick_base::Items;
use trick_lang::{Cell, CellRange, Place};

// For each cell the furthest end of the ranges that begin there.
#[derive(Drop)]
pub struct Ends {
    ends: Vec<usize>,
}

impl Model for Ends {
    ghost use Rattle.std.specs.Prelude.{List, ℕ};

    ghost Value = { List ℕ };

    ghost view = { λ e. e.ends.items };
}

impl Ends {
    // No range, over so many cells.
    pub fn new(alloc: Global, cells: usize) -> Result<Self, AllocError>
        ensures { IfOk result (λ e. e ≡ replicate cells 0) }
    {
        Ok(Ends {
            ends: vec![in alloc; 0; cells]?,
        })
    }

    // Notes the cells from the first to the last.
    fn note_cells(&mut self, first: usize, last: usize)
        requires { last < 2 ^ 35 }
        ensures { self.new ≡ noted_one self.old (range_of_cells first (last + 1)) }
    {
        if first < self.ends.len() {
            self.ends[first] = larger(self.ends[first], last + 1);
        }
    }

    // Notes the cells that a place stands for.
    pub fn note(&mut self, place: &Place, base: u32)
        ensures { self.new ≡ noted_one self.old (range_of (spot_of place.now) base) }
    {
        let first = origin_of(place.own, base) + place.first as usize;
        self.note_cells(first, first + less_one(place.span));
    }

    // The cells that were noted, as ranges.
    pub fn into_ranges(self, alloc: Global) -> Result<Items<CellRange>, AllocError>
        requires { length self ≤ 65536 }
        ensures { IfOk result (λ ranges. ranges ≡ spans (is_reached self) 0 (length self) None) }
    {
        ranges(alloc, &self.ends)
    }
}

fn origin_of(own: bool, base: u32) -> usize
    ensures is { result ≡ origin own base }
    ensures small { result < 2 ^ 32 }
{
    if own { base as usize } else { 0 }
}

fn less_one(span: u32) -> usize
    ensures is { result ≡ span - 1 }
    ensures small { result < 2 ^ 32 }
{
    if span == 0 { 0 } else { span as usize - 1 }
}

fn larger(a: usize, b: usize) -> usize
    ensures { result ≡ larger_of a b }
{
    if a < b { b } else { a }
}

fn range(first: u32, behind: u32) -> CellRange
    requires { 1 ≤ behind }
    ensures { result ≡ range_of_cells first behind }
{
    CellRange {
        first: Cell(first),
        last: Cell(behind - 1),
    }
}

// Looks at one cell more: where the range began that has not ended after it. A range that ends
// before it is put to those that were made.
fn turn(
    cell: u32,
    within: bool,
    began: Option<u32>,
    made: &mut Items<CellRange>,
) -> Result<Option<u32>, AllocError>
    requires { IsBegun began cell }
    ensures told { IfOk result (λ next. (f : ℕ → Bool) → (n : ℕ) → f cell ≡ within →
        made.new ++ spans f (cell + 1) n next ≡ made.old ++ spans f cell (suc n) began) }
    ensures begun { IfOk result (λ next. IsBegun next (cell + 1)) }
{
    match began {
        None => { if within { Ok(Some(cell)) } else { Ok(None) } }
        Some(first) => {
            if within {
                Ok(Some(first))
            } else {
                made.push(range(first, cell))?;
                Ok(None)
            }
        }
    }
}

fn ranges(alloc: Global, ends: &[usize]) -> Result<Items<CellRange>, AllocError>
    requires { length ends.now ≤ 65536 }
    ensures { IfOk result (λ ranges. ranges ≡ spans (is_reached ends.now) 0 (length ends.now) None) }
{
    let mut made = Items::new(alloc);
    let mut end = 0;
    let mut began = None;
    for cell in 0..ends.len() {
        end = larger(end, ends[cell]);
        began = turn(cell as u32, cell < end, began, &mut made)?;
    }
    if let Some(first) = began {
        made.push(range(first, ends.len() as u32))?;
    }
    Ok(made)
}
