//! The scope of a thread.

ghost use Rattle.std.specs.List.{slice_index_or};
ghost use Rattle.std.specs.Prelude.{◌≡◌, ◌<◌, ◌≤◌, ◌||◌, ◌&&◌, ℕ, IfOk, OnOk, false, filter, length, map, nat_le};
ghost use Rattle.trick_chkpt_printer.specs.Marks.{is_marked, marked_cells};
ghost use Rattle.trick_lang.specs.Access.{is_in};
ghost use Rattle.trick_lang.specs.Effect.{reads, writes};
ghost use Rattle.trick_lang.specs.declared.cells.Cell.{Cell};
ghost use Rattle.trick_lang.specs.declared.job.JobId.{JobId};
ghost use Rattle.trick_model.specs.Access.{scope as scope_of};
ghost use Rattle.trick_model.specs.PlanOf.{plan_of};

use crate::plan_jobs::jobs_of;
use std::alloc::{AllocError, Global};
use trick_access::access;
use trick_lang::{Cell, CellRange, JobId, Program};
use trick_model::{Plan, Thread};

// Marks the cells of a range.
fn mark_range(range: CellRange, marks: &mut [bool])
    ensures { (c : ℕ) → c < length marks.old → is_marked marks.new c ≡
        ((nat_le (range.first).0 c && nat_le c (range.last).0) || is_marked marks.old c) }
{
    let end = (range.last.0 as usize + 1).min(marks.len());
    let first = (range.first.0 as usize).min(end);
    for cell in first..end {
        marks[cell] = true;
    }
}

fn mark_ranges(ranges: &[CellRange], marks: &mut [bool])
    ensures { (c : ℕ) → c < length marks.old → is_marked marks.new c ≡ (is_in ranges.now c || is_marked marks.old c) }
{
    for range in ranges {
        mark_range(*range, marks);
    }
}

// Marks the cells that a job may read or write.
fn mark_job(
    alloc: Global,
    program: &Program,
    job: JobId,
    marks: &mut [bool],
) -> Result<(), AllocError>
    requires { job.0 < length program.now.jobs }
    ensures { OnOk result ((c : ℕ) → c < length marks.old → is_marked marks.new c ≡
        ((is_in (reads program.now job) c || is_in (writes program.now job) c) || is_marked marks.old c)) }
{
    let access = access(alloc, program, job)?;
    mark_ranges(access.reads.as_slice(), marks);
    mark_ranges(access.writes.as_slice(), marks);
    Ok(())
}

// The cells that are marked, in order.
fn cells_of(alloc: Global, marks: &[bool]) -> Result<Vec<Cell>, AllocError>
    requires { length marks.now ≤ 65536 }
    ensures { IfOk result (λ found. map (λ (cell : Cell). cell.0) found.items ≡ marked_cells marks.now) }
{
    let mut found = Vec::new(alloc);
    for (cell, mark) in marks.iter().enumerate() {
        if *mark {
            found.push(Cell(cell as u32))?;
        }
    }
    Ok(found)
}

/// The cells that the jobs of a thread may read or write, in order. It costs the cells of the
/// program and the statements that a job reaches, for each job of the thread.
pub fn scope(alloc: Global, plan: &Plan, thread: Thread) -> Result<Vec<Cell>, AllocError>
    ensures { IfOk result (λ found. map (λ (cell : Cell). cell.0) found.items ≡ scope_of (plan_of plan.now) thread) }
{
    let jobs = jobs_of(alloc, &plan.program, thread)?;
    let mut marks = vec![in alloc; false; plan.program.cells.len()]?;
    for job in &jobs {
        mark_job(alloc, &plan.program, *job, &mut marks)?;
    }
    cells_of(alloc, &marks)
}
