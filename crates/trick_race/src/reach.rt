// The cells that asynchronous work may reach.

ghost use Rattle.std.specs.Prelude.{◌≡◌, ◌↔◌, ◌<◌, ℕ, IfOk, IsTrue, MatchBool, MatchOption, length, slice_index_or};
ghost use Rattle.trick_model.specs.Access.{IsReached};
ghost use Rattle.trick_model.specs.Plan.{is_async as is_async_of, is_on_async, process_in};
ghost use Rattle.trick_model.specs.PlanOf.{plan_of};
ghost use Rattle.trick_access.specs.Accesses.{no_access};
ghost use Rattle.trick_race.specs.Accesses.{AreAccesses, Feeds, IsInOrderBoth, has};
ghost use Rattle.trick_race.specs.Reached.{AddsFed, AreReaching, IsWaiting};

use crate::accesses::written_by;
use crate::cell_set::CellSet;
use crate::ranges::common_cell;
use std::alloc::{AllocError, Global};
use trick_access::Access;
use trick_lang::Job;
use trick_model::{Plan, Thread, process_of};

fn is_on_async_thread(threads: &[Thread], job: &Job) -> bool
    ensures { result ≡ is_async_of (process_in threads.now job.now.thread) }
{
    process_of(threads, job.thread).is_async()
}

// The jobs of asynchronous threads.
fn sources(alloc: Global, plan: &Plan) -> Result<Vec<bool>, AllocError>
    ensures length { IfOk result (λ set. length set.items ≡ length plan.now.program.jobs) }
    ensures sources { IfOk result (λ set. (k : ℕ) → k < length plan.now.program.jobs
        → has set.items k ≡ is_on_async plan.now.program.jobs plan.now.threads k) }
{
    let mut set = Vec::new(alloc);
    for job in plan.program.jobs.as_slice() {
        set.push(is_on_async_thread(plan.threads.as_slice(), job))?;
    }
    Ok(set)
}

// A job that was taken in and has not been followed.
fn next(taken: &[bool], followed: &[bool]) -> Option<usize>
    requires { length taken.now ≡ length followed.now }
    ensures { MatchOption result ((k : ℕ) → IsWaiting taken.now followed.now k → ⊥)
        (λ k. (k < length taken.now) × IsWaiting taken.now followed.now k) }
{
    for job in 0..taken.len() {
        if taken[job] && !followed[job] {
            return Some(job);
        }
    }
    None
}

// Whether the second job may read what the first may write.
fn feeds(accesses: &[Access], one: usize, other: usize, cells: usize) -> bool
    requires one { one < length accesses.now }
    requires other { other < length accesses.now }
    requires in_order { (k : ℕ) → k < length accesses.now
        → IsInOrderBoth cells (slice_index_or accesses.now k no_access) }
    ensures { MatchBool result (Feeds accesses.now one other) (Feeds accesses.now one other → ⊥) }
{
    let (writer, reader) = (&accesses[one], &accesses[other]);
    common_cell(writer.writes.as_slice(), reader.reads.as_slice(), cells).is_some()
}

// Takes in each job that may read what the job may write.
fn take_fed(accesses: &[Access], job: usize, taken: &mut Vec<bool>, cells: usize)
    requires job { job < length accesses.now }
    requires length { length taken.old.items ≡ length accesses.now }
    requires in_order { (k : ℕ) → k < length accesses.now
        → IsInOrderBoth cells (slice_index_or accesses.now k no_access) }
    ensures { AddsFed accesses.now job taken.old.items taken.new.items }
{
    for other in 0..accesses.len() {
        if !taken[other] && feeds(accesses, job, other, cells) {
            taken[other] = true;
        }
    }
}

// The jobs that may write what asynchronous work may reach, by the fixed point: each job is taken in at
// most once, and followed once.
fn reaching(alloc: Global, plan: &Plan, accesses: &[Access]) -> Result<Vec<bool>, AllocError>
    requires { AreAccesses (length plan.now.program.cells) (plan_of plan.now) accesses.now }
    ensures { IfOk result (λ jobs. AreReaching (plan_of plan.now) jobs.items) }
{
    let mut taken = sources(alloc, plan)?;
    let mut followed = vec![in alloc; false; accesses.len()]?;
    while let Some(job) = next(&taken, &followed) {
        followed[job] = true;
        take_fed(accesses, job, &mut taken, plan.program.cells.len());
    }
    Ok(taken)
}

// The asynchronous reach.
pub(crate) fn reach(alloc: Global, plan: &Plan, accesses: &[Access]) -> Result<CellSet, AllocError>
    requires { AreAccesses (length plan.now.program.cells) (plan_of plan.now) accesses.now }
    ensures { IfOk result (λ set. (c : ℕ) → IsTrue (has set c) ↔ IsReached (plan_of plan.now) c) }
{
    let jobs = reaching(alloc, plan, accesses)?;
    written_by(alloc, accesses, &jobs, plan.program.cells.len())
}
