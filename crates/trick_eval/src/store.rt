//! Loops over the cells of a bench and of a memory.

ghost use Rattle.std.specs.List.{slice_index_or};
ghost use Rattle.std.specs.Prelude.{◌≡◌, ◌<◌, ◌≤◌, ◌+◌, IsTrue, MatchOption, None, Some, false, length, pos, true, ℕ, ℤ};
ghost use Rattle.trick_eval.specs.Bench.{with_number, DiffersWithin, IsFirstDifference, SameWithin, covers};
ghost use Rattle.trick_access.specs.Ranges.{are_sorted};
ghost use Rattle.trick_lang.specs.Effect.{overwritten};
ghost use Rattle.trick_lang.specs.Laws.{AgreeOn};
ghost use Rattle.trick_lang.specs.Wrap.{IsInRange};

use crate::working::Working;
use trick_lang::{Cell, CellRange, Cells};

// Gives a cell the number that was stored there, if one was.
fn put<M: Cells>(working: &Working, cell: u32, into: &mut M)
    requires range { (c : ℕ) → (n : ℤ) → slice_index_or working.now.stored c None ≡ Some n
        → IsInRange (M.scalars into.old) c n }
    ensures numbers { M.numbers into.new ≡ with_number (slice_index_or working.now.stored cell None) cell
        (M.numbers into.old) }
    ensures scalars { M.scalars into.new ≡ M.scalars into.old }
{
    if cell >= into.len() {
        return;
    }
    if let Some(number) = working.stored(cell as usize) {
        into.set(Cell(cell), number);
    }
}

/// Overwrites a memory by what was stored.
pub fn overwrite<M: Cells>(working: &Working, into: &mut M)
    requires length { length working.now.stored ≡ length (M.numbers into.old) }
    requires range { (c : ℕ) → (n : ℤ) → slice_index_or working.now.stored c None ≡ Some n
        → IsInRange (M.scalars into.old) c n }
    ensures numbers { M.numbers into.new ≡ overwritten working.now.stored (M.numbers into.old) }
    ensures scalars { M.scalars into.new ≡ M.scalars into.old }
{
    for cell in working.cells() {
        put(working, *cell, into);
    }
}

// Copies the cells of a range.
fn copy_range<M: Cells>(range: CellRange, from: &M, into: &mut Vec<i64>)
    requires length { length into.old.items ≡ length (M.numbers from.now) }
    requires rises { (range.first).0 ≤ (range.last).0 }
    requires below { (range.last).0 < length (M.numbers from.now) }
    ensures copied { (c : ℕ) → covers range c ≡ true →
        slice_index_or into.new.items c (pos 0) ≡ slice_index_or (M.numbers from.now) c (pos 0) }
    ensures kept { (c : ℕ) → covers range c ≡ false →
        slice_index_or into.new.items c (pos 0) ≡ slice_index_or into.old.items c (pos 0) }
    ensures length { length into.new.items ≡ length into.old.items }
{
    for cell in range.first.0 as usize..range.last.0 as usize + 1 {
        into[cell] = from.get(Cell(cell as u32));
    }
}

/// Copies the cells of the ranges.
pub fn copy<M: Cells>(ranges: &[CellRange], from: &M, into: &mut Vec<i64>)
    requires length { length into.old.items ≡ length (M.numbers from.now) }
    requires sorted { IsTrue (are_sorted 0 (length (M.numbers from.now)) ranges.now) }
    ensures agree { AgreeOn ranges.now into.new.items (M.numbers from.now) }
    ensures length { length into.new.items ≡ length into.old.items }
{
    for range in ranges {
        copy_range(*range, from, into);
    }
}

// The first cell of a range at which a memory and inputs differ, with their numbers there.
fn difference_in<M: Cells>(range: CellRange, from: &M, inputs: &[i64]) -> Option<(Cell, i64, i64)>
    requires length { length inputs.now ≡ length (M.numbers from.now) }
    requires rises { (range.first).0 ≤ (range.last).0 }
    requires below { (range.last).0 < length (M.numbers from.now) }
    ensures { MatchOption result
        (SameWithin range ((range.last).0 + 1) (M.numbers from.now) inputs.now)
        (λ d. DiffersWithin range (M.numbers from.now) inputs.now (d.0).0 d.1 d.2) }
{
    for cell in range.first.0 as usize..range.last.0 as usize + 1 {
        let kept = from.get(Cell(cell as u32));
        let given = inputs[cell];
        if kept != given {
            return Some((Cell(cell as u32), kept, given));
        }
    }
    None
}

/// The first cell of the ranges at which a memory and inputs differ, with their numbers there.
pub fn difference<M: Cells>(
    ranges: &[CellRange],
    from: &M,
    inputs: &[i64],
) -> Option<(Cell, i64, i64)>
    requires length { length inputs.now ≡ length (M.numbers from.now) }
    requires sorted { IsTrue (are_sorted 0 (length (M.numbers from.now)) ranges.now) }
    ensures { MatchOption result (AgreeOn ranges.now (M.numbers from.now) inputs.now)
        (λ d. IsFirstDifference ranges.now (M.numbers from.now) inputs.now (d.0).0 d.1 d.2) }
{
    for range in ranges {
        if let Some(found) = difference_in(*range, from, inputs) {
            return Some(found);
        }
    }
    None
}
