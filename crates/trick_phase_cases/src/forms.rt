//! The forms that run the due jobs of a tic in key order, from a memory of zeros on.

ghost use Rattle.std.specs.Prelude.{◌≡◌, ◌≤◌};
ghost use Rattle.trick_base.specs.Time.{tic_limit};
ghost use Rattle.trick_model.specs.Order.{jobs_at};
ghost use Rattle.trick_model.specs.PlanOf.{plan_of};
ghost use Rattle.trick_model.specs.Valid.{ids};
ghost use Rattle.trick_model.specs.declared.flags.Flags.{Flags};

use crate::due::asked;
use crate::schedules::tell_line;
use std::alloc::{AllocError, Global};
use trick_base::TIC_LIMIT;
use trick_cases_report::Report;
use trick_lang::JobId;
use trick_memory::Memory;
use trick_model::{Accepted, Faults};
use trick_phase::{Played, Single};
use trick_phase_jobs::{OnePhase, Phases};

// Runs the due jobs of a tic.
fn run<P: Phases<Memory>>(
    alloc: Global,
    accepted: &Accepted,
    phases: &mut P,
    due: &[JobId],
    tic: u64,
) -> Result<Played<Memory>, AllocError>
    requires own { P.is_for phases.old accepted.now.plan }
    requires due { (on : Flags) → ids due.now ≡ jobs_at (plan_of accepted.now.plan) on tic }
    requires tic { tic ≤ tic_limit }
{
    let plan = accepted.plan();
    let mut faults = Faults::new(alloc)?;
    let memory = Memory::new(alloc, plan)?;
    let after = phases.tic(accepted, memory, &plan.jobs, due, tic, &mut faults);
    Ok(Played::Done {
        memory: after,
        faults,
    })
}

// Adds what the due jobs of a tic come to.
fn fold<P: Phases<Memory>>(
    alloc: Global,
    accepted: &Accepted,
    phases: &mut P,
    tic: u64,
    report: &mut Report,
) -> Result<(), AllocError>
    requires own { P.is_for phases.old accepted.now.plan }
    requires tic { tic ≤ tic_limit }
{
    let plan = accepted.plan();
    let queues = asked(alloc, plan, tic)?;
    let played = run(alloc, accepted, phases, queues.due(), tic);
    drop(queues);
    tell_line(played?, report);
    Ok(())
}

/// Adds what the due jobs of a tic come to by the form of a single phase.
pub(crate) fn by_one_phase(
    alloc: Global,
    accepted: &Accepted,
    tic: u64,
    report: &mut Report,
) -> Result<(), AllocError> {
    let mut phases = OnePhase::new(alloc, accepted)?;
    let done = fold(alloc, accepted, &mut phases, tic.min(TIC_LIMIT), report);
    drop(phases);
    done
}

/// The same by the form of a board and one bench.
pub(crate) fn by_one_bench(
    alloc: Global,
    accepted: &Accepted,
    tic: u64,
    report: &mut Report,
) -> Result<(), AllocError> {
    let mut phases = Single::new(alloc, accepted)?;
    let done = fold(alloc, accepted, &mut phases, tic.min(TIC_LIMIT), report);
    drop(phases);
    done
}
