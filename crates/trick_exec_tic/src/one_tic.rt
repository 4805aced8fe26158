//! One tic.

ghost use Rattle.std.specs.Prelude.{◌≡◌, ◌+◌, ◌<◌, ◌≤◌, OnOk};
ghost use Rattle.trick_exec_posts.specs.Flight.{AsksNothing};
ghost use Rattle.trick_phase_jobs.specs.Belongs.{IsMemoryOf};
ghost use Rattle.trick_model.specs.PlanOf.{plan_of};
ghost use Rattle.trick_model.specs.State.{seen};
ghost use Rattle.trick_model.specs.Tic.{jobs_done, tic as tic_of};
ghost use Rattle.trick_base.specs.Time.{tic_limit};
ghost use Rattle.trick_outside.specs.Does.{Does};
ghost use Rattle.trick_exec_tic.specs.Course.{IsUnderWay};
ghost use Rattle.trick_exec_tic.specs.Current.{asking_of};
ghost use Rattle.trick_exec_tic.specs.Due.{AreJobsFor};
ghost use Rattle.trick_exec_tic.specs.Steps.{steps_of};

use crate::{Course, Current, Workers};
use core::mem::replace_with;
use std::sync::ledger::Ledger;
use trick_lang::Cells;
use trick_model::{Accepted, State, laws};
use trick_outside::{Shelf, Stop};
use trick_phase_jobs::Phases;
use trick_post_work::Posts;
use trick_queue::{Queues, Steps};

// Runs the due jobs of a tic. The memory alone is taken out of the state for them, and put back.
fn run_due<M: Cells, H: Phases<M>, L: Ledger>(
    accepted: &Accepted,
    tic: u64,
    state: &mut State<M>,
    queues: &mut Queues,
    steps: &mut Steps<L>,
    phases: &mut H,
)
    requires own { H.is_for phases.old accepted.now.plan }
    requires jobs { AreJobsFor accepted.now.plan queues.old tic }
    requires memory { IsMemoryOf accepted.now.plan.program (M.numbers state.old.memory) (M.scalars state.old.memory) }
    requires tic { tic ≤ tic_limit }
    ensures done { seen M.numbers state.new ≡ jobs_done (plan_of accepted.now.plan) tic (seen M.numbers state.old) }
    ensures scalars { M.scalars state.new.memory ≡ M.scalars state.old.memory }
    ensures jobs { AreJobsFor accepted.now.plan queues.new (tic + 1) }
    ensures own { H.is_for phases.new accepted.now.plan }
{
    queues.ask_counted(accepted.plan(), tic, steps);
    if queues.due().is_empty() {
        return;
    }
    let on = &state.jobs;
    let due = queues.due();
    let lent = (phases, &mut state.faults);
    let _back = replace_with(&mut state.memory, lent, |memory, (phases, faults)| {
        let after = phases.tic(accepted, memory, on, due, tic, faults);
        (after, (phases, faults))
    });
}

/// The next tic of a state: its reads, its events, the must-finish work of the threads whose cycle ends
/// at it, its due jobs, and its rows, each in one append. It is for a tic below the limit. It costs what is
/// due at the tic. It stops where the shelf failed, or where there was no memory for a row or for the
/// record of a thread that takes for the first time; nothing is said of the state then.
pub fn tic<M: Cells, F: Shelf, H: Phases<M>, P: Posts, L: Ledger>(
    accepted: &Accepted,
    current: &mut Current<M>,
    course: &mut Course<L>,
    shelf: &mut F,
    workers: &mut Workers<H, P>,
) -> Result<(), Stop>
    requires own { H.is_for workers.old.phases accepted.now.plan }
    requires posts { P.plan workers.old.posts ≡ accepted.now.plan }
    requires under_way { IsUnderWay accepted.now.plan course.old (P.in_flight workers.old.posts)
        (seen M.numbers current.old.state) (M.scalars current.old.state.memory) }
    requires below { current.old.state.tic < current.old.state.limit }
    ensures state { OnOk result (asking_of M.numbers current.new
        ≡ (tic_of (plan_of accepted.now.plan) (asking_of M.numbers current.old)).asking) }
    ensures does { Does F.Shelf shelf.old shelf.new result
        (steps_of (tic_of (plan_of accepted.now.plan) (asking_of M.numbers current.old)).writes) }
    ensures under_way { OnOk result (IsUnderWay accepted.now.plan course.new (P.in_flight workers.new.posts)
        (seen M.numbers current.new.state) (M.scalars current.new.state.memory)) }
    ensures own { H.is_for workers.new.phases accepted.now.plan }
    ensures asks { AsksNothing P.Posts workers.old.posts workers.new.posts }
{
    laws::plans_are_sound();
    let tic = current.state.tic;
    course.fire(accepted.plan(), tic, &mut current.state, &mut current.asked);
    let Ok(()) = course
        .ends
        .finish(course.alloc, tic, &mut current.state, &mut workers.posts)
    else {
        return Err(Stop::Memory);
    };
    run_due(
        accepted,
        tic,
        &mut current.state,
        &mut course.queues,
        &mut course.steps,
        &mut workers.phases,
    );
    course
        .rows
        .write(accepted.plan(), tic, &mut current.state, shelf)?;
    current.state.tic = tic + 1;
    Ok(())
}
