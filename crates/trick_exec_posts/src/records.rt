//! The records of threads beside the tics: they are filled and emptied in place, and keep their room.

ghost use Rattle.std.specs.Prelude.{◌≡◌, OnOk, map};
ghost use Rattle.trick_exec_posts.specs.Stations.{record_of};
ghost use Rattle.trick_lang.specs.declared.cells.Cell.{Cell as CellValue};
ghost use Rattle.trick_lang.specs.declared.job.JobId.{JobId as JobIdValue};
ghost use Rattle.trick_model.specs.Plan.{is_on};
ghost use Rattle.trick_model.specs.State.{nothing_taken, number_at};

use crate::Station;
use std::alloc::AllocError;
use trick_base::Items;
use trick_lang::{Cell, Cells, JobId};
use trick_model::{Flags, Taken};

// The number of a cell; past the last cell it is 0.
fn number<M: Cells>(memory: &M, cell: Cell) -> i64
    ensures { result ≡ number_at (M.numbers memory.now) cell.0 }
{
    if cell.0 < memory.len() {
        memory.get(cell)
    } else {
        0
    }
}

// Puts the numbers of these cells in place of what was there.
fn put_numbers<M: Cells>(
    memory: &M,
    cells: &[Cell],
    numbers: &mut Items<i64>,
) -> Result<(), AllocError>
    ensures { OnOk result (numbers.new ≡ map
        (λ (cell : CellValue). number_at (M.numbers memory.now) cell.0) cells.now) }
{
    numbers.clear();
    for cell in cells {
        numbers.push(number(memory, *cell))?;
    }
    Ok(())
}

// Puts the flags of these jobs in place of what was there.
fn put_flags(flags: &Flags, jobs: &[JobId], on: &mut Items<bool>) -> Result<(), AllocError>
    ensures { OnOk result (on.new ≡ map (λ (job : JobIdValue). is_on flags.now job.0) jobs.now) }
{
    on.clear();
    for job in jobs {
        on.push(flags.is_on(job.0 as usize))?;
    }
    Ok(())
}

/// Fills a record with what the thread of a station is given.
pub(crate) fn fill<M: Cells>(
    memory: &M,
    flags: &Flags,
    station: &Station,
    taken: &mut Taken,
) -> Result<(), AllocError>
    ensures { OnOk result (taken.new ≡ record_of (M.numbers memory.now) flags.now station.now) }
{
    put_numbers(memory, station.scope.as_slice(), &mut taken.cells)?;
    put_flags(flags, station.jobs.as_slice(), &mut taken.on.on)?;
    taken.held = true;
    Ok(())
}

/// Empties a record.
pub(crate) fn empty(taken: &mut Taken)
    ensures { taken.new ≡ nothing_taken }
{
    taken.held = false;
    taken.cells.clear();
    taken.on.on.clear();
}
