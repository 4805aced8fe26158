//! The run of an accepted plan that is served, and what is said of it.

ghost use Rattle.std.specs.Arc.{arc_value};
ghost use Rattle.std.specs.Prelude.{◌≡◌, IfErr, IfOk, None, Some, option_map};
ghost use Rattle.trick_phase_jobs.specs.Belongs.{IsMemoryOf};
ghost use Rattle.trick_model.specs.PlanOf.{plan_of};
ghost use Rattle.trick_model.specs.State.{seen};
ghost use Rattle.trick_model.specs.ValidState.{IsStateOf};
ghost use Rattle.trick_serve_seats.specs.Taking.{hosts};
ghost use Rattle.trick_serve.specs.Serving.{moment, outside};
ghost use Rattle.trick_top_alone.specs.Verdict.{verdict_of};
ghost use Rattle.trick_top.specs.Firsts.{HasFirst, HasNoFirst};
ghost use Rattle.trick_top.specs.Rows.{IsServedSo, has_risen as has_risen_so, served_verdict};

use std::alloc::Global;
use std::sync::{Arc, Wait};
use std::thread::Threads;
use trick_chkpt_state::resume;
use trick_exec_alone::{Summary, first_state};
use trick_memory::Memory;
use trick_model::{Accepted, State, laws};
use trick_outside::{Door, Gate, Shelf, Spawner, Stop};
use trick_serve::{Service, Serving, serve};
use trick_top_alone::{Verdict, unloaded};

/// How a command went whose door and spawner were handed in: they are handed back.
#[derive(Drop)]
pub(crate) struct Answer<'a, D, S> {
    pub(crate) verdict: Verdict<'a>,
    pub(crate) door: D,
    pub(crate) spawner: S,
}

/// Whether a count rose, or stands at its end.
fn has_risen(before: u64, now: u64) -> bool
    ensures { result ≡ has_risen_so before now }
{
    before.saturating_add(1) <= now
}

/// The verdict on a run that was served and ended so.
fn verdict(ended: Result<Summary, Stop>, sessions: u64, door_failed: bool) -> Verdict<'static>
    ensures { verdict_of result ≡ served_verdict ended sessions door_failed }
{
    match ended {
        Ok(ended) => Verdict::Served {
            ended,
            sessions,
            door_failed,
        },
        Err(Stop::Shelf) => Verdict::ShelfFault,
        Err(Stop::Memory) => Verdict::OutOfMemory,
    }
}

/// Serves the run of an accepted plan from a state.
pub(crate) fn serve_from<F: Shelf, D, S, G, R>(
    alloc: Global,
    accepted: &Arc<Accepted, Global>,
    state: State<Memory>,
    serving: Serving<D, S, G, R>,
    shelf: &mut F,
) -> Answer<'static, D, S>
where
    D: Door + Send + Drop + 'static,
    D::In: Send + Drop + 'static,
    D::Out: Send + Drop + 'static,
    S: Spawner + Send + Drop + 'static,
    G: Gate + Send + Sync + Drop + 'static,
    R: Threads + Wait + Copy + Send + Drop + 'static,
    requires valid { IsStateOf (plan_of (arc_value accepted.now).plan) (seen (λ memory. memory.numbers) state) }
    requires memory { IsMemoryOf (arc_value accepted.now).plan.program state.memory.numbers state.memory.scalars }
    ensures { IsServedSo (outside F.Shelf (hosts D.visited D.In.LinkIn D.Out.LinkOut S.failures D.has_client)) D.failures
        (arc_value accepted.now).plan (seen (λ memory. memory.numbers) state)
        (moment shelf.old serving.door serving.spawner) (moment shelf.new result.door result.spawner)
        (verdict_of result.verdict) }
{
    let before = serving.door.faults();
    let Service {
        ended,
        sessions,
        door,
        spawner,
    } = serve(serving, alloc, accepted, state, shelf);
    let door_failed = has_risen(before, door.faults());
    Answer {
        verdict: verdict(ended, sessions, door_failed),
        door,
        spawner,
    }
}

/// The state in which a plan starts.
fn started(
    alloc: Global,
    accepted: &Arc<Accepted, Global>,
) -> Result<State<Memory>, Verdict<'static>>
    ensures first { IfOk result (λ state. HasFirst (arc_value accepted.now).plan None
        (seen (λ memory. memory.numbers) state) state.memory.numbers state.memory.scalars) }
    ensures none { IfErr result (λ verdict. HasNoFirst (arc_value accepted.now).plan None (verdict_of verdict)) }
{
    laws::plans_are_sound();
    laws::runs_start_valid();
    match first_state(alloc, accepted) {
        Ok(state) => Ok(state),
        Err(_) => Err(Verdict::OutOfMemory),
    }
}

/// The state of which a text is the checkpoint.
fn resumed(
    alloc: Global,
    accepted: &Arc<Accepted, Global>,
    text: &[u8],
) -> Result<State<Memory>, Verdict<'static>>
    ensures first { IfOk result (λ state. HasFirst (arc_value accepted.now).plan (Some text.now)
        (seen (λ memory. memory.numbers) state) state.memory.numbers state.memory.scalars) }
    ensures none { IfErr result (λ verdict.
        HasNoFirst (arc_value accepted.now).plan (Some text.now) (verdict_of verdict)) }
{
    match resume(alloc, accepted.plan(), text) {
        Ok(state) => Ok(state),
        Err(fault) => Err(unloaded(alloc, fault)),
    }
}

/// The state from which a plan is run: that of its start, or of the checkpoint of which this is the text.
pub(crate) fn first(
    alloc: Global,
    accepted: &Arc<Accepted, Global>,
    from: Option<&[u8]>,
) -> Result<State<Memory>, Verdict<'static>>
    ensures first { IfOk result (λ state. HasFirst (arc_value accepted.now).plan
        (option_map (λ text. text.now) from.entry) (seen (λ memory. memory.numbers) state) state.memory.numbers
        state.memory.scalars) }
    ensures none { IfErr result (λ verdict. HasNoFirst (arc_value accepted.now).plan
        (option_map (λ text. text.now) from.entry) (verdict_of verdict)) }
{
    match from {
        None => started(alloc, accepted),
        Some(text) => resumed(alloc, accepted, text),
    }
}
