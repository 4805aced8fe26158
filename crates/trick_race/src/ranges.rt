// Ranges of cells in order, merged.

ghost use Rattle.std.specs.Prelude.{ℕ, ◌↔◌, IsTrue, MatchOption};
ghost use Rattle.trick_lang.specs.Access.{is_in};
ghost use Rattle.trick_model.specs.Acceptance.{AreApart};
ghost use Rattle.trick_race.specs.Accesses.{AreSeparate, IsInOrder, IsInOrderBoth};

use trick_access::Access;
use trick_lang::{Cell, CellRange};

// A cell that is in both lists. It goes over each list once.
pub(crate) fn common_cell(xs: &[CellRange], ys: &[CellRange], cells: usize) -> Option<Cell>
    requires xs { IsInOrder cells xs.now }
    requires ys { IsInOrder cells ys.now }
    ensures { MatchOption result (AreApart (is_in xs.now) (is_in ys.now))
        (λ cell. IsTrue (is_in xs.now cell.0) × IsTrue (is_in ys.now cell.0)) }
{
    let mut left = xs;
    let mut right = ys;
    loop {
        let Some((x, others)) = left.split_first() else {
            return None;
        };
        let Some((y, rest)) = right.split_first() else {
            return None;
        };
        if x.last.0 < y.first.0 {
            left = others;
        } else if y.last.0 < x.first.0 {
            right = rest;
        } else {
            return Some(Cell(x.first.0.max(y.first.0)));
        }
    }
}

// Whether no cell is in both lists.
fn are_apart(xs: &[CellRange], ys: &[CellRange], cells: usize) -> bool
    requires xs { IsInOrder cells xs.now }
    requires ys { IsInOrder cells ys.now }
    ensures { IsTrue result ↔ AreApart (is_in xs.now) (is_in ys.now) }
{
    common_cell(xs, ys, cells).is_none()
}

// Whether neither writes what the other reads or writes.
pub(crate) fn are_separate(x: &Access, y: &Access, cells: usize) -> bool
    requires x { IsInOrderBoth cells x.now }
    requires y { IsInOrderBoth cells y.now }
    ensures { IsTrue result ↔ AreSeparate x.now y.now }
{
    if !are_apart(x.writes.as_slice(), y.reads.as_slice(), cells) {
        return false;
    }
    if !are_apart(y.writes.as_slice(), x.reads.as_slice(), cells) {
        return false;
    }
    are_apart(x.writes.as_slice(), y.writes.as_slice(), cells)
}
