//! Whether a plan is accepted.

ghost use Rattle.std.specs.Prelude.{◌≡◌, IfErr, IfOk, OnOk};
ghost use Rattle.trick_access.specs.Accesses.{AreAccessesOf};
ghost use Rattle.trick_model.specs.Acceptance.{IsAccepted};
ghost use Rattle.trick_model.specs.PlanOf.{plan_of};
ghost use Rattle.trick_race.specs.Refusals.{AreForward, AreNamedRight, AreOnMain, HoldsBefore, NamesFirst};

use crate::PlanFault;
use crate::race::first_race;
use crate::reach::reach;
use crate::recorded::{async_event, async_recorded};
use crate::threads::{backwards, class_on_child, no_thread};
use crate::writers::shared_writer;
use std::alloc::Global;
use trick_access::Access;
use trick_model::{Accepted, Candidate, Plan};

/// Judges a plan: it is accepted, or the first case is named of the first condition that does not hold.
///
/// Its time grows with the pairs of jobs, times the ranges of cells that they may read and write.
pub fn judge(alloc: Global, candidate: &Candidate) -> Result<(), PlanFault>
    ensures accepted { OnOk result (IsAccepted (plan_of candidate.now.plan)) }
    ensures before { IfErr result (HoldsBefore (plan_of candidate.now.plan)) }
    ensures first { IfErr result (NamesFirst (plan_of candidate.now.plan)) }
{
    judge_plan(alloc, candidate.plan(), candidate.accesses())
}

// Judges a plan by what its jobs may read and write.
fn judge_plan(alloc: Global, plan: &Plan, accesses: &[Access]) -> Result<(), PlanFault>
    requires { AreAccessesOf plan.now.program accesses.now }
    ensures accepted { OnOk result (IsAccepted (plan_of plan.now)) }
    ensures before { IfErr result (HoldsBefore (plan_of plan.now)) }
    ensures first { IfErr result (NamesFirst (plan_of plan.now)) }
{
    if let Some(thread) = no_thread(plan) {
        return Err(PlanFault::NoThread {
            thread: thread.number,
        });
    }
    if let Some(job) = class_on_child(plan) {
        return Err(PlanFault::ClassOnChild { job });
    }
    if let Some(pair) = backwards(plan) {
        return Err(PlanFault::Backwards {
            target: pair.target,
            depended: pair.depended,
        });
    }
    judge_cells(alloc, plan, accesses)
}

// Judges what the jobs may read and write, where the conditions before hold.
fn judge_cells(alloc: Global, plan: &Plan, accesses: &[Access]) -> Result<(), PlanFault>
    requires named { AreNamedRight (plan_of plan.now) }
    requires on_main { AreOnMain (plan_of plan.now) }
    requires forward { AreForward (plan_of plan.now) }
    requires accesses { AreAccessesOf plan.now.program accesses.now }
    ensures accepted { OnOk result (IsAccepted (plan_of plan.now)) }
    ensures before { IfErr result (HoldsBefore (plan_of plan.now)) }
    ensures first { IfErr result (NamesFirst (plan_of plan.now)) }
{
    if let Some((cell, one, other)) = shared_writer(alloc, plan, accesses)? {
        return Err(PlanFault::SharedWriter {
            cell,
            thread: one.number,
            other: other.number,
        });
    }
    let reach = reach(alloc, plan, accesses)?;
    if let Some((group, cell)) = async_recorded(plan, &reach) {
        return Err(PlanFault::AsyncRecorded { group, cell });
    }
    if let Some(event) = async_event(plan, &reach) {
        return Err(PlanFault::AsyncEvent { event });
    }
    match first_race(alloc, plan, accesses)? {
        None => Ok(()),
        Some((job, other, tic)) => Err(PlanFault::Race { job, other, tic }),
    }
}

/// Accepts a plan, or refuses it as [`judge`] does. A refused plan is dropped.
pub fn accept(alloc: Global, plan: Plan) -> Result<Accepted, PlanFault>
    ensures plan { IfOk result (λ accepted. accepted.plan ≡ plan) }
    ensures accepted { OnOk result (IsAccepted (plan_of plan)) }
    ensures before { IfErr result (HoldsBefore (plan_of plan)) }
    ensures first { IfErr result (NamesFirst (plan_of plan)) }
{
    let candidate = Candidate::of(alloc, plan)?;
    judge(alloc, &candidate)?;
    Ok(Accepted::of(candidate))
}
