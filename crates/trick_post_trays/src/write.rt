//! What is written of one memory into another.

ghost use Rattle.std.specs.List.{list_any, slice_index_or};
ghost use Rattle.std.specs.Prelude.{◌≡◌, ◌&&◌, ◌<◌, ◌≤◌, [], IsTrue, length};
ghost use Rattle.trick_access.specs.Ranges.{are_sorted};
ghost use Rattle.trick_eval.specs.Bench.{covers};
ghost use Rattle.trick_phase_jobs.specs.Belongs.{IsMemoryOf};
ghost use Rattle.trick_lang.specs.Access.{is_in};
ghost use Rattle.trick_lang.specs.Effect.{writes as writes_of};
ghost use Rattle.trick_lang.specs.declared.class.Class.TheVariants as class;
ghost use Rattle.trick_model.specs.Order.{is_of_class};
ghost use Rattle.trick_model.specs.Valid.{ids};
ghost use Rattle.trick_post_trays.specs.Calendars.{EndsInTime, has_work as has_work_of};
ghost use Rattle.trick_post_trays.specs.Scratch.{IsWritten};
ghost use Rattle.trick_post_trays.specs.Trays.{AreWrites};
ghost use Rattle.trick_queue.specs.Line.{AreScheduled};

use crate::scratch::Scratch;
use trick_base::Items;
use trick_cycle::laws::due_test_is_exact;
use trick_lang::{Cell, CellRange, Cells, JobId};
use trick_model::Plan;
use trick_post_work::Job1;
use trick_queue::{next_of, times};

// Writes the cells of a range.
fn write_range<M: Cells>(range: CellRange, from: &Scratch, into: &mut M)
    requires length { length from.now.numbers ≡ length (M.numbers into.old) }
    requires scalars { from.now.scalars ≡ M.scalars into.old }
    requires rises { (range.first).0 ≤ (range.last).0 }
    requires below { (range.last).0 < length (M.numbers into.old) }
    ensures numbers { IsWritten (covers range) from.now.numbers (M.numbers into.old) (M.numbers into.new) }
    ensures scalars { M.scalars into.new ≡ M.scalars into.old }
{
    for cell in range.first.0 as usize..range.last.0 as usize + 1 {
        let cell = Cell(cell as u32);
        into.set(cell, from.get(cell));
    }
}

// Writes the cells of the ranges.
fn write_ranges<M: Cells>(ranges: &[CellRange], from: &Scratch, into: &mut M)
    requires length { length from.now.numbers ≡ length (M.numbers into.old) }
    requires scalars { from.now.scalars ≡ M.scalars into.old }
    requires sorted { IsTrue (are_sorted 0 (length (M.numbers into.old)) ranges.now) }
    ensures numbers { IsWritten (is_in ranges.now) from.now.numbers (M.numbers into.old) (M.numbers into.new) }
    ensures scalars { M.scalars into.new ≡ M.scalars into.old }
{
    for range in ranges {
        write_range(*range, from, into);
    }
}

// Whether a job has something to do.
fn has_work(plan: &Plan, job: JobId, work: Job1) -> bool
    requires scheduled { IsTrue (is_of_class plan.now.program.jobs class.Scheduled job.0) }
    requires time { EndsInTime work }
    ensures { result ≡ has_work_of plan.now.program.jobs work job.0 }
{
    due_test_is_exact();
    match work {
        Job1::Frame { first, last } => next_of(times(plan, job), first) <= last,
        Job1::Round => true,
    }
}

// The ranges of a job.
fn ranges_of(all: &[Items<CellRange>], job: JobId) -> &[CellRange]
    ensures { result.now ≡ slice_index_or all.now job.0 [] }
{
    match all.get(job.0 as usize) {
        Some(ranges) => ranges.as_slice(),
        None => &[],
    }
}

// Writes the cells of the ranges where that is wanted.
fn write_wanted<M: Cells>(wanted: bool, ranges: &[CellRange], from: &Scratch, into: &mut M)
    requires length { length from.now.numbers ≡ length (M.numbers into.old) }
    requires scalars { from.now.scalars ≡ M.scalars into.old }
    requires sorted { IsTrue (are_sorted 0 (length (M.numbers into.old)) ranges.now) }
    ensures numbers { IsWritten (λ c. wanted && is_in ranges.now c) from.now.numbers
        (M.numbers into.old) (M.numbers into.new) }
    ensures scalars { M.scalars into.new ≡ M.scalars into.old }
{
    if wanted {
        write_ranges(ranges, from, into);
    }
}

/// What a thread has to do.
#[derive(Clone, Copy)]
pub struct Duty<'a> {
    pub plan: &'a Plan,
    /// Of class scheduled.
    pub jobs: &'a [JobId],
    pub work: Job1,
}

/// Gives each cell that a job with something to do may write the number that it has in another memory.
/// `writes` are the cells that each job may write.
pub fn write_jobs<M: Cells>(duty: Duty, writes: &[Items<CellRange>], from: &Scratch, into: &mut M)
    requires scheduled { AreScheduled duty.plan.now.program.jobs duty.jobs.now }
    requires time { EndsInTime duty.work }
    requires writes { AreWrites duty.plan.now writes.now }
    requires memory { IsMemoryOf duty.plan.now.program (M.numbers into.old) (M.scalars into.old) }
    requires from { IsMemoryOf duty.plan.now.program from.now.numbers from.now.scalars }
    ensures numbers { IsWritten (λ c. list_any (λ k. has_work_of duty.entry.plan.now.program.jobs duty.entry.work k
        && is_in (writes_of duty.entry.plan.now.program (record { 0 = k })) c) (ids duty.entry.jobs.now))
        from.now.numbers (M.numbers into.old) (M.numbers into.new) }
    ensures scalars { M.scalars into.new ≡ M.scalars into.old }
{
    for job in duty.jobs {
        let wanted = has_work(duty.plan, *job, duty.work);
        write_wanted(wanted, ranges_of(writes, *job), from, into);
    }
}
