//! Lines of groups, and of the records of threads.

ghost use Rattle.std.specs.Prelude.{◌≡◌, ◌++◌, [], OnOk, IfOk, codes};
ghost use Rattle.trick_chkpt_printer.specs.Parts.{held_of};
ghost use Rattle.trick_model.specs.Checkpoint.{all_taken_lines, at, group_lines, held_lines, last_lines, taken_lines, line, with_commas};
ghost use Rattle.trick_model.specs.Plan.{threads_beside as threads_beside_of};
ghost use Rattle.trick_model.specs.PlanOf.{plan_of};
ghost use Rattle.trick_model.specs.Valid.{cell_names};

use crate::cells::{push_cells, push_job_flags};
use crate::line::{push_flag, push_indexed, push_line};
use crate::plan_jobs::{jobs_of, threads_beside};
use crate::thread_scope::scope;
use std::alloc::{AllocError, Global};
use trick_base::Items;
use trick_codes::push_row;
use trick_lang::{Cell, JobId, Program};
use trick_model::{Group, Plan, Taken, Thread};

// Appends the value of a last row and the end of its line.
fn push_last_row(text: &mut Vec<u8>, row: &[i64]) -> Result<(), AllocError>
    ensures { OnOk result (text.new.items ≡ text.old.items ++ line [] (with_commas row.now)) }
{
    text.extend_from_slice(b" = ")?;
    push_row(text, row)?;
    text.extend_from_slice(b"\n")
}

// Appends the line of the last row of a group, where it records on change.
fn push_last(
    text: &mut Vec<u8>,
    index: usize,
    group: &Group,
    last: &Option<Items<i64>>,
) -> Result<(), AllocError>
    ensures { OnOk result (text.new.items ≡ text.old.items ++ last_lines index group.now last.now) }
{
    if !group.changes {
        return Ok(());
    }
    push_indexed(text, b"last", index)?;
    match last {
        None => push_line(text, b"", b"none"),
        Some(row) => push_last_row(text, row.as_slice()),
    }
}

/// Appends a line for the flag of each group, followed by that of its last row.
pub(crate) fn push_groups(
    text: &mut Vec<u8>,
    groups: &[Group],
    flags: &[bool],
    rows: &[Option<Items<i64>>],
) -> Result<(), AllocError>
    ensures { OnOk result (text.new.items ≡ text.old.items ++ group_lines 0 groups.now flags.now rows.now) }
{
    for k in 0..groups.len().min(flags.len()).min(rows.len()) {
        push_flag(text, b"group", k, flags[k])?;
        push_last(text, k, &groups[k], &rows[k])?;
    }
    Ok(())
}

// The name of the record of a thread.
fn record_name(alloc: Global, thread: Thread) -> Result<Vec<u8>, AllocError>
    ensures { IfOk result (λ name. name.items ≡ at (codes "taken") thread.number) }
{
    let mut name = Vec::new(alloc);
    push_indexed(&mut name, b"taken", usize::from(thread.number))?;
    Ok(name)
}

// Appends the lines of what is held for these cells and jobs, under the name of the record.
fn push_held_lines(
    text: &mut Vec<u8>,
    program: &Program,
    mut name: Vec<u8>,
    cells: &[Cell],
    jobs: &[JobId],
    taken: &Taken,
) -> Result<(), AllocError>
    ensures { OnOk result (text.new.items ≡ text.old.items ++
        held_of (cell_names program.now.cells) name.items cells.now jobs.now taken.now) }
{
    name.extend_from_slice(b".")?;
    push_cells(text, &name, program, cells, taken.cells.as_slice())?;
    name.extend_from_slice(b"job")?;
    push_job_flags(text, &name, jobs, taken.on.on.as_slice())
}

// Appends the lines of what is held for a thread.
fn push_held(
    alloc: Global,
    text: &mut Vec<u8>,
    plan: &Plan,
    thread: Thread,
    taken: &Taken,
) -> Result<(), AllocError>
    ensures { OnOk result (text.new.items ≡ text.old.items ++
        held_lines (plan_of plan.now) thread (at (codes "taken") thread.number) taken.now) }
{
    let cells = scope(alloc, plan, thread)?;
    let jobs = jobs_of(alloc, &plan.program, thread)?;
    let name = record_name(alloc, thread)?;
    push_held_lines(text, &plan.program, name, &cells, &jobs, taken)
}

// Appends the record of a thread.
fn push_record(
    alloc: Global,
    text: &mut Vec<u8>,
    plan: &Plan,
    thread: Thread,
    taken: &Taken,
) -> Result<(), AllocError>
    ensures { OnOk result (text.new.items ≡ text.old.items ++ taken_lines (plan_of plan.now) thread taken.now) }
{
    push_indexed(text, b"taken", usize::from(thread.number))?;
    if !taken.held {
        return push_line(text, b"", b"none");
    }
    push_line(text, b"", b"held")?;
    push_held(alloc, text, plan, thread, taken)
}

/// Appends the records of all threads beside the tics.
pub(crate) fn push_records(
    alloc: Global,
    text: &mut Vec<u8>,
    plan: &Plan,
    records: &[Taken],
) -> Result<(), AllocError>
    ensures { OnOk result (text.new.items ≡ text.old.items ++
        all_taken_lines (plan_of plan.now) (threads_beside_of (plan_of plan.now)) records.now) }
{
    let threads = threads_beside(alloc, plan)?;
    for i in 0..threads.len().min(records.len()) {
        push_record(alloc, text, plan, threads[i], &records[i])?;
    }
    Ok(())
}
