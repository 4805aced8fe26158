//! The last rows of the groups that record on change.

ghost use Rattle.std.specs.List.{slice_index_or};
ghost use Rattle.std.specs.Prelude.{◌≡◌, None, OnErr, OnOk, Some, map, slice_set};
ghost use Rattle.trick_lang.specs.declared.cells.Cell.{Cell};
ghost use Rattle.trick_model.specs.Records.{is_new as is_new_of, row_of};
ghost use Rattle.trick_model.specs.State.{number_at, seen};

use crate::values::{is_same, numbers, renew};
use std::alloc::{AllocError, Global};
use std::mem::replace;
use trick_base::Items;
use trick_lang::{Cell, Cells};
use trick_model::{Group, State};

/// Whether a group has no last row, or one of whose numbers has changed.
pub(crate) fn is_new<M: Cells>(group: &Group, k: usize, state: &State<M>) -> bool
    ensures { result ≡ is_new_of (row_of group.now (seen M.numbers state.now)) (slice_index_or state.now.last k None) }
{
    match state.last.as_slice().get(k) {
        Some(Some(row)) => !is_same(&state.memory, group.cells.as_slice(), row.as_slice()),
        Some(None) | None => true,
    }
}

// The row of a place anew, in the memory of the one before where that has as many numbers.
fn again<M: Cells>(
    alloc: Global,
    memory: &M,
    cells: &[Cell],
    row: &mut Option<Items<i64>>,
) -> Result<(), AllocError>
    ensures ok { OnOk result (row.new
        ≡ Some (map (λ (cell : Cell). number_at (M.numbers memory.now) cell.0) cells.now)) }
    ensures err { OnErr result (row.new ≡ row.old) }
{
    if let Some(row) = row {
        if row.len() == cells.len() {
            renew(memory, cells, row);
            return Ok(());
        }
    }
    *row = Some(Items::from_vec(numbers(alloc, memory, cells)?));
    Ok(())
}

/// Makes the numbers of a group its last row.
pub(crate) fn keep<M: Cells>(
    alloc: Global,
    group: &Group,
    k: usize,
    state: &mut State<M>,
) -> Result<(), AllocError>
    ensures ok { OnOk result (state.new ≡ record state.old {
      last = slice_set state.old.last k (Some (row_of group.now (seen M.numbers state.old)));
    }) }
    ensures err { OnErr result (state.new ≡ state.old) }
{
    if k >= state.last.len() {
        return Ok(());
    }
    let mut all = replace(&mut state.last, Items::new(alloc)).into_vec();
    let kept = again(alloc, &state.memory, group.cells.as_slice(), &mut all[k]);
    state.last = Items::from_vec(all);
    kept
}
