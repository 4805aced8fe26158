//! Reading the records of threads.

ghost use Rattle.std.specs.Prelude.{◌≡◌, ◌++◌, IfOk, true};
ghost use Rattle.trick_chkpt_lines.specs.CheckpointLines.{held_of, record_name as record_name_of, record_of, records_of, scope_cells, thread_jobs};
ghost use Rattle.trick_codes.specs.Gives.{beside, Gives};
ghost use Rattle.trick_codes.specs.Lines.{read_lines};

use std::alloc::{AllocError, Global};
use trick_base::Items;
use trick_chkpt_lines::{read_cells, read_job_flags};
use trick_chkpt_printer::{jobs_of, scope, threads_beside};
use trick_codes::{LineStop, set_indexed, word_line};
use trick_lang::{Cell, JobId};
use trick_model::{Flags, Plan, Taken, Thread};

// The name of the record of a thread, and this after it.
fn record_name(alloc: Global, thread: Thread, tail: &[u8]) -> Result<Vec<u8>, AllocError>
    ensures { IfOk result (λ name. name.items ≡ record_name_of thread ++ tail.now) }
{
    let mut name = Vec::new(alloc);
    set_indexed(&mut name, b"taken", usize::from(thread.number))?;
    name.extend_from_slice(tail)?;
    Ok(name)
}

fn cells_of(alloc: Global, plan: &Plan, thread: Thread) -> Result<Vec<Cell>, AllocError>
    ensures { IfOk result (λ found. found.items ≡ scope_cells plan.now thread) }
{
    scope(alloc, plan, thread)
}

fn jobs_in(alloc: Global, plan: &Plan, thread: Thread) -> Result<Vec<JobId>, AllocError>
    ensures { IfOk result (λ found. found.items ≡ thread_jobs plan.now thread) }
{
    jobs_of(alloc, &plan.program, thread)
}

// Reads what is held for a thread, under the name of its record.
#[tactic(auto, unfolding(trick_chkpt_lines::specs::CheckpointLines::held_of))]
fn read_held<'a>(
    alloc: Global,
    plan: &Plan,
    thread: Thread,
    rest: &'a [u8],
) -> Result<(Taken, &'a [u8]), LineStop<'a>>
    ensures told { Gives (λ x. ((x.0.cells, x.0.on.on), x.1.now)) result
        (read_lines (held_of plan.now thread) rest.now) }
    ensures held { IfOk result (λ x. x.0.held ≡ true) }
{
    let scope = cells_of(alloc, plan, thread)?;
    let jobs = jobs_in(alloc, plan, thread)?;
    let front = record_name(alloc, thread, b".")?;
    let stem = record_name(alloc, thread, b".job")?;
    let (cells, rest) = read_cells(alloc, plan, &front, &scope, rest)?;
    let (on, rest) = read_job_flags(alloc, &stem, &jobs, rest)?;
    let held = Taken {
        held: true,
        cells,
        on,
    };
    Ok((held, rest))
}

// Reads the record of a thread. Its scope is not looked for where nothing is held.
#[tactic(auto, unfolding(trick_chkpt_lines::specs::CheckpointLines::record_of, trick_chkpt_lines::specs::CheckpointLines::held_behind))]
fn read_record<'a>(
    alloc: Global,
    plan: &Plan,
    thread: Thread,
    rest: &'a [u8],
) -> Result<(Taken, &'a [u8]), LineStop<'a>>
    ensures { Gives beside result (read_lines (record_of plan.now thread) rest.now) }
{
    let mut name = Vec::new(alloc);
    set_indexed(&mut name, b"taken", usize::from(thread.number))?;
    let (word, rest) = word_line(&name, &[b"none;", b"held;"], rest)?;
    if word > 0 {
        return read_held(alloc, plan, thread, rest);
    }
    let none = Taken {
        held: false,
        cells: Items::new(alloc),
        on: Flags {
            on: Items::new(alloc),
        },
    };
    Ok((none, rest))
}

/// Reads the records of all threads beside the tics.
#[tactic(auto, unfolding(trick_chkpt_lines::specs::CheckpointLines::records_of))]
pub(crate) fn read_records<'a>(
    alloc: Global,
    plan: &Plan,
    rest: &'a [u8],
) -> Result<(Items<Taken>, &'a [u8]), LineStop<'a>>
    ensures { Gives beside result (read_lines (records_of plan.now) rest.now) }
{
    let mut found = Items::new(alloc);
    let mut here = rest;
    let threads = threads_beside(alloc, plan)?;
    for thread in &threads {
        let (record, after) = read_record(alloc, plan, *thread, here)?;
        found.push(record)?;
        here = after;
    }
    Ok((found, here))
}
