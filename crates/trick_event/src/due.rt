//! The reads and the events of a tic.

ghost use Rattle.std.specs.List.{slice_index_or};
ghost use Rattle.std.specs.Prelude.{◌≡◌, ◌<◌, ◌≤◌, All, IsTrue, length};
ghost use Rattle.trick_event.specs.Asking.{asking};
ghost use Rattle.trick_event.specs.Deeds.{CanDo, CanDoLists};
ghost use Rattle.trick_event.specs.Event.{event_done, read_done};
ghost use Rattle.trick_phase_jobs.specs.Belongs.{IsMemoryOf};
ghost use Rattle.trick_model.specs.Condition.{is_condition_of};
ghost use Rattle.trick_model.specs.Events.{act_all, event_acts, events_done, fire as fired_of, fires, reads_done};
ghost use Rattle.trick_model.specs.Plan.{Event as EventOf};
ghost use Rattle.trick_model.specs.PlanOf.{event_of, plan_of};
ghost use Rattle.trick_model.specs.State.{seen};
ghost use Rattle.trick_base.specs.Time.{tic_limit};
ghost use Rattle.trick_model.specs.declared.read_at.ReadAt.{ReadAt};

use crate::action::act;
use crate::condition::holds;
use crate::{Asked, Moment};
use trick_base::Items;
use trick_lang::Cells;
use trick_model::{Deed, Event, Plan, State};

// Does deeds one after another, in a tic.
fn act_all<M: Cells>(deeds: &[Deed], state: &mut State<M>, asked: &mut Asked, tic: u64)
    requires deeds { All (CanDo (length (M.numbers state.old.memory)) (M.scalars state.old.memory)) deeds.now }
    requires tic { tic ≤ tic_limit }
    ensures acted { asking M.numbers state.new asked.new
        ≡ act_all tic deeds.now (asking M.numbers state.old asked.old) }
    ensures length { length (M.numbers state.new.memory) ≡ length (M.numbers state.old.memory) }
    ensures scalars { M.scalars state.new.memory ≡ M.scalars state.old.memory }
{
    for deed in deeds {
        act(*deed, state, asked, Moment::Tic(tic));
    }
}

// Does the deeds of an event, by rising number.
fn event_acts<M: Cells>(
    numbered: &[(u8, Items<Deed>)],
    state: &mut State<M>,
    asked: &mut Asked,
    tic: u64,
)
    requires deeds { CanDoLists (length (M.numbers state.old.memory)) (M.scalars state.old.memory) numbered.now }
    requires tic { tic ≤ tic_limit }
    ensures acted { asking M.numbers state.new asked.new
        ≡ event_acts tic numbered.now (asking M.numbers state.old asked.old) }
    ensures length { length (M.numbers state.new.memory) ≡ length (M.numbers state.old.memory) }
    ensures scalars { M.scalars state.new.memory ≡ M.scalars state.old.memory }
{
    for (_, deeds) in numbered {
        act_all(deeds.as_slice(), state, asked, tic);
    }
}

// Whether an event fires: it is active, its cycle divides the tic, and its condition is not 0.
fn fires<M: Cells>(event: &Event, place: usize, state: &State<M>, tic: u64) -> bool
    requires cycle { 0 < event.now.cycle }
    requires condition { IsTrue (is_condition_of (length (M.numbers state.now.memory)) event.now.condition) }
    ensures { result ≡ fires tic place (event_of event.now) (seen M.numbers state.now) }
{
    state.events.is_on(place) && tic % event.cycle == 0 && holds(&event.condition, &state.memory)
}

// The event of a place, which fires or does nothing. It is inactive after its deeds.
fn event_done<M: Cells>(
    plan: &Plan,
    state: &mut State<M>,
    asked: &mut Asked,
    place: usize,
    tic: u64,
)
    requires memory { IsMemoryOf plan.now.program (M.numbers state.old.memory) (M.scalars state.old.memory) }
    requires place { place < length plan.now.events }
    requires tic { tic ≤ tic_limit }
    ensures done { (none : EventOf) → asking M.numbers state.new asked.new
        ≡ event_done tic place (slice_index_or (plan_of plan.now).events place none)
        (asking M.numbers state.old asked.old) }
    ensures memory { IsMemoryOf plan.now.program (M.numbers state.new.memory) (M.scalars state.new.memory) }
{
    let event = &plan.events.as_slice()[place];
    if fires(event, place, state, tic) {
        event_acts(event.actions.as_slice(), state, asked, tic);
        state.events.turn(place, false);
    }
}

/// The events of a tic, in the order in which the input added them.
pub(crate) fn events_done<M: Cells>(plan: &Plan, state: &mut State<M>, asked: &mut Asked, tic: u64)
    requires memory { IsMemoryOf plan.now.program (M.numbers state.old.memory) (M.scalars state.old.memory) }
    requires tic { tic ≤ tic_limit }
    ensures done { asking M.numbers state.new asked.new
        ≡ events_done tic 0 (plan_of plan.now).events (asking M.numbers state.old asked.old) }
    ensures memory { IsMemoryOf plan.now.program (M.numbers state.new.memory) (M.scalars state.new.memory) }
{
    for place in 0..plan.events.len() {
        event_done(plan, state, asked, place, tic);
    }
}

/// The read of a place, where it is of the tic.
pub(crate) fn read_done<M: Cells>(
    plan: &Plan,
    state: &mut State<M>,
    asked: &mut Asked,
    place: usize,
    tic: u64,
)
    requires memory { IsMemoryOf plan.now.program (M.numbers state.old.memory) (M.scalars state.old.memory) }
    requires place { place < length plan.now.reads }
    requires tic { tic ≤ tic_limit }
    ensures done { (none : ReadAt) → asking M.numbers state.new asked.new
        ≡ read_done tic (slice_index_or plan.now.reads place none)
        (asking M.numbers state.old asked.old) }
    ensures memory { IsMemoryOf plan.now.program (M.numbers state.new.memory) (M.scalars state.new.memory) }
{
    let read = &plan.reads.as_slice()[place];
    if read.tic == tic {
        act_all(read.actions.as_slice(), state, asked, tic);
    }
}

// The reads of a tic, in the order of their lines.
fn reads_done<M: Cells>(plan: &Plan, state: &mut State<M>, asked: &mut Asked, tic: u64)
    requires memory { IsMemoryOf plan.now.program (M.numbers state.old.memory) (M.scalars state.old.memory) }
    requires tic { tic ≤ tic_limit }
    ensures done { asking M.numbers state.new asked.new
        ≡ reads_done tic plan.now.reads (asking M.numbers state.old asked.old) }
    ensures memory { IsMemoryOf plan.now.program (M.numbers state.new.memory) (M.scalars state.new.memory) }
{
    for place in 0..plan.reads.len() {
        read_done(plan, state, asked, place, tic);
    }
}

/// Does the reads of a tic, in the order of their lines, and then its events, in the order in which
/// the input added them. It looks at each read and each event of the plan. This is the plain form, a
/// yardstick that no run calls: [`Agenda`](crate::Agenda) does the same at the cost of the reads that
/// are due. Takes no memory.
pub fn fire<M: Cells>(plan: &Plan, state: &mut State<M>, asked: &mut Asked, tic: u64)
    requires memory { IsMemoryOf plan.now.program (M.numbers state.old.memory) (M.scalars state.old.memory) }
    requires tic { tic ≤ tic_limit }
    ensures fired { asking M.numbers state.new asked.new
        ≡ fired_of (plan_of plan.now) tic (asking M.numbers state.old asked.old) }
    ensures memory { IsMemoryOf plan.now.program (M.numbers state.new.memory) (M.scalars state.new.memory) }
{
    reads_done(plan, state, asked, tic);
    events_done(plan, state, asked, tic);
}
