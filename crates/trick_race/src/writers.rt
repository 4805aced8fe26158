// Cells that the scheduled jobs of two threads may write.

ghost use Rattle.std.specs.Prelude.{◌≡◌, ◌≢◌, ◌↔◌, ◌<◌, ◌||◌, ◌&&◌, ◌==◌, IfOk, IsTrue, MatchOption, length, map, slice_index_or};
ghost use Rattle.trick_lang.specs.declared.class.Class.TheVariants as class;
ghost use Rattle.trick_model.specs.Acceptance.{IsWrittenOnce, may_write_on};
ghost use Rattle.trick_lang.specs.declared.job.Job.{Job};
ghost use Rattle.trick_model.specs.Order.{rank};
ghost use Rattle.trick_model.specs.Plan.{is_beside};
ghost use Rattle.trick_model.specs.PlanOf.{plan_of};
ghost use Rattle.trick_model.specs.declared.thread.Thread.{Thread as ThreadValue};
ghost use Rattle.trick_race.specs.Accesses.{AreAccesses};
ghost use Rattle.trick_race.specs.Refusals.{HasOneWriter, HaveOneWriter, IsFirstItemWithout, IsOnlyWriter, IsSharedWriter};
ghost use Rattle.trick_race.specs.Writers.{AreFirstWriters, AreThreadWrites};

use crate::accesses::written_by;
use crate::cell_set::CellSet;
use std::alloc::{AllocError, Global};
use trick_access::Access;
use trick_lang::{Cell, Class, Job};
use trick_model::{Plan, Thread, is_of_class};

// The scheduled jobs of a thread.
fn jobs_of(alloc: Global, jobs: &[Job], thread: Thread) -> Result<Vec<bool>, AllocError>
    ensures { IfOk result (λ set. set.items ≡
        map (λ (job : Job). (rank job.class == rank class.Scheduled) && (job.thread == thread.number)) jobs.now) }
{
    let mut set = Vec::new(alloc);
    for job in jobs {
        set.push(is_of_class(job, Class::Scheduled) && job.thread == thread.number)?;
    }
    Ok(set)
}

// The thread at a place.
fn thread_at(plan: &Plan, place: usize) -> Thread
    requires { place < length plan.now.threads }
    ensures { (d : ThreadValue) → slice_index_or plan.now.threads place d ≡ result }
{
    plan.threads.as_slice()[place]
}

// What the scheduled jobs of each thread may write, by its place.
fn thread_writes(
    alloc: Global,
    plan: &Plan,
    accesses: &[Access],
) -> Result<Vec<CellSet>, AllocError>
    requires { AreAccesses (length plan.now.program.cells) (plan_of plan.now) accesses.now }
    ensures { IfOk result (λ sets. AreThreadWrites (plan_of plan.now) sets.items) }
{
    let mut sets = Vec::new(alloc);
    for place in 0..plan.threads.len() {
        let thread = thread_at(plan, place);
        let jobs = jobs_of(alloc, plan.program.jobs.as_slice(), thread)?;
        sets.push(written_by(alloc, accesses, &jobs, plan.program.cells.len())?)?;
    }
    Ok(sets)
}

// Whether two threads do not both write a cell, where they must not.
fn is_written_once(one: Thread, other: Thread, one_writes: bool, other_writes: bool) -> bool
    ensures { IsTrue result ↔ (one.number ≢ other.number
        → IsTrue (is_beside one.process || is_beside other.process)
        → IsTrue (one_writes && other_writes) → ⊥) }
{
    if one.number == other.number {
        return true;
    }
    if !one.process.is_beside() && !other.process.is_beside() {
        return true;
    }
    !(one_writes && other_writes)
}

// The first thread that may write the cell and must not, where this one may.
fn first_other(
    plan: &Plan,
    sets: &[CellSet],
    cell: usize,
    thread: Thread,
    writes: bool,
) -> Option<Thread>
    requires sets { AreThreadWrites (plan_of plan.now) sets.now }
    requires writes { writes ≡ may_write_on (plan_of plan.now) thread cell }
    ensures { MatchOption result (IsOnlyWriter (plan_of plan.now) cell thread)
        (IsFirstItemWithout (λ other. IsWrittenOnce (plan_of plan.now) thread other cell) plan.now.threads) }
{
    if !writes {
        return None;
    }
    for place in 0..plan.threads.len() {
        let other = thread_at(plan, place);
        if !is_written_once(thread, other, writes, sets[place].has(cell)) {
            return Some(other);
        }
    }
    None
}

// The first two threads that may write the cell and must not.
fn first_two(plan: &Plan, sets: &[CellSet], cell: usize) -> Option<(Thread, Thread)>
    requires { AreThreadWrites (plan_of plan.now) sets.now }
    ensures { MatchOption result (HasOneWriter (plan_of plan.now) cell)
        (λ found. AreFirstWriters (plan_of plan.now) cell found.0 found.1) }
{
    for place in 0..plan.threads.len() {
        let thread = thread_at(plan, place);
        if let Some(other) = first_other(plan, sets, cell, thread, sets[place].has(cell)) {
            return Some((thread, other));
        }
    }
    None
}

// The first cell that two threads may write and must not, with the first two of them.
pub(crate) fn shared_writer(
    alloc: Global,
    plan: &Plan,
    accesses: &[Access],
) -> Result<Option<(Cell, Thread, Thread)>, AllocError>
    requires { AreAccesses (length plan.now.program.cells) (plan_of plan.now) accesses.now }
    ensures { IfOk result (λ found. MatchOption found (HaveOneWriter (plan_of plan.now))
        (λ shared. IsSharedWriter (plan_of plan.now) (shared.0).0 shared.1 shared.2)) }
{
    let sets = thread_writes(alloc, plan, accesses)?;
    for cell in 0..plan.program.cells.len() {
        if let Some((thread, other)) = first_two(plan, &sets, cell) {
            return Ok(Some((Cell(cell as u32), thread, other)));
        }
    }
    Ok(None)
}
