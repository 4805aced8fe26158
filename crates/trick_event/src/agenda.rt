//! The reads that are left, and the next tic at which a read or an event may do something.

ghost use Rattle.std.specs.Prelude.{◌≡◌, ◌+◌, ◌<◌, ◌≤◌, All, IfOk, None, Some, cond, length, nat_lt};
ghost use Rattle.trick_cycle.specs.Due.{IsInRange};
ghost use Rattle.trick_cycle.specs.Least.{FindsLeast};
ghost use Rattle.trick_event.specs.Asking.{asking};
ghost use Rattle.trick_event.specs.Due.{AreLeft, AreLeftBy, cycle_of, IsFor, IsNextEvent, IsNextWhere, IsStirred, tic_left, tic_of};
ghost use Rattle.trick_phase_jobs.specs.Belongs.{IsMemoryOf};
ghost use Rattle.trick_model.specs.Events.{fire as fired_of, reads_done};
ghost use Rattle.trick_model.specs.PlanOf.{plan_of};
ghost use Rattle.trick_model.specs.State.{State as StateOf};
ghost use Rattle.trick_base.specs.Time.{tic_limit};
ghost use Rattle.trick_model.specs.Valid.{IsCycle};
ghost use Rattle.trick_model.specs.declared.event.Event.{Event as EventValue};
ghost use Rattle.trick_queue.specs.Tree.{never};

use crate::Asked;
use crate::due::{events_done, read_done};
use std::alloc::{AllocError, Global};
use std::marker::Model;
use trick_base::TIC_LIMIT;
use trick_cycle::{Due, next_due};
use trick_lang::Cells;
use trick_model::{Event, Flags, Plan, ReadAt, State};
use trick_queue::{NEVER, Tics};

/// What is due when: the tic of each read that is not passed. It gives the next tic at which a read
/// or an active event is due, and does the reads of a tic at the cost of these.
#[derive(Drop)]
pub struct Agenda {
    from: u64,
    reads: Tics,
}

impl Model for Agenda {
    ghost use Rattle.trick_event.specs.Due.{AgendaView};

    ghost Value = { AgendaView };

    ghost view = { λ a. record { from = a.from; reads = a.reads } };
}

// The tic of a read, but `NEVER` where that is passed.
fn tic_left(from: u64, tic: u64) -> u64
    ensures { result ≡ tic_left from tic }
{
    if tic < from { NEVER } else { tic }
}

// The tic of the read of a place.
fn tic_of(reads: &[ReadAt], place: usize) -> u64
    requires { place < length reads.now }
    ensures { result ≡ tic_of reads.now place }
{
    reads[place].tic
}

// Notes the tic of each read that is not passed.
fn fill(reads: &[ReadAt], from: u64, tics: &mut Tics)
    requires { length tics.old ≡ length reads.now }
    ensures { AreLeft from reads.now tics.new }
{
    for place in 0..reads.len() {
        tics.set(place, tic_left(from, tic_of(reads, place)));
    }
}

// Forgets the reads up to a tic.
fn pass(reads: &[ReadAt], tics: &mut Tics, tic: u64)
    requires left { AreLeftBy tic reads.now tics.old }
    requires range { tic ≤ tic_limit }
    ensures { AreLeft (tic + 1) reads.now tics.new }
{
    let mut passed = 0;
    while passed < reads.len() {
        match tics.first_by(tic) {
            None => return,
            Some(place) => {
                tics.set(place, NEVER);
                passed = place + 1;
            }
        }
    }
}

// Does the reads of a tic, in the order of their lines, and forgets those up to it.
fn reads_done<M: Cells>(
    plan: &Plan,
    state: &mut State<M>,
    asked: &mut Asked,
    tics: &mut Tics,
    tic: u64,
)
    requires memory { IsMemoryOf plan.now.program (M.numbers state.old.memory) (M.scalars state.old.memory) }
    requires left { AreLeftBy tic plan.now.reads tics.old }
    requires range { tic ≤ tic_limit }
    ensures done { asking M.numbers state.new asked.new
        ≡ reads_done tic plan.now.reads (asking M.numbers state.old asked.old) }
    ensures memory { IsMemoryOf plan.now.program (M.numbers state.new.memory) (M.scalars state.new.memory) }
    ensures left { AreLeft (tic + 1) plan.now.reads tics.new }
{
    let mut passed = 0;
    while passed < plan.reads.len() {
        match tics.first_by(tic) {
            None => return,
            Some(place) => {
                read_done(plan, state, asked, place, tic);
                tics.set(place, NEVER);
                passed = place + 1;
            }
        }
    }
}

// The times of the event of a place.
fn times(events: &[Event], place: usize) -> Due
    requires place { place < length events.now }
    requires cycles { All (λ (event : EventValue). IsCycle event.cycle) events.now }
    ensures times { result ≡ record { start = 0; cycle = cycle_of events.now place; stop = tic_limit } }
    ensures range { IsInRange result }
{
    Due {
        start: 0,
        cycle: events[place].cycle,
        stop: TIC_LIMIT,
    }
}

// The least tic from one on at which an event is due that may be active, and `NEVER` where it is not
// or there is none.
fn next_of(times: Due, active: bool, from: u64) -> u64
    requires { IsInRange times }
    ensures { IsNextWhere active times from result }
{
    if !active {
        return NEVER;
    }
    match next_due(times, from) {
        Some(tic) => tic,
        None => NEVER,
    }
}

// The least tic from one on at which an active event is due, and `NEVER` where there is none.
fn next_event(events: &[Event], on: &Flags, from: u64) -> u64
    requires { All (λ (event : EventValue). IsCycle event.cycle) events.now }
    ensures { IsNextEvent events.now on.now from (length events.now) result }
{
    let mut next = NEVER;
    for place in 0..events.len() {
        let tic = next_of(times(events, place), on.is_on(place), from);
        next = next.min(tic);
    }
    next
}

// The tic, if there is one.
fn known(tic: u64) -> Option<u64>
    ensures { result ≡ cond (nat_lt tic never) (Some tic) None }
{
    if tic < NEVER { Some(tic) } else { None }
}

impl Agenda {
    /// The agenda of a plan for a run that goes on at a tic. This call alone takes memory.
    pub fn new(alloc: Global, plan: &Plan, tic: u64) -> Result<Self, AllocError>
        ensures own { IfOk result (λ a. IsFor plan.now a) }
        ensures from { IfOk result (λ a. a.from ≡ tic) }
    {
        let mut reads = Tics::new(alloc, plan.reads.len())?;
        fill(plan.reads.as_slice(), tic, &mut reads);
        Ok(Agenda { from: tic, reads })
    }

    /// The least tic from this one on, up to the last tic of a run, at which a read of the plan or one
    /// of its active events is due; `None` where there is none. Before it [`fire`](Self::fire) would
    /// do nothing. All tics before `from` are passed then. It looks at each event, and takes no
    /// memory.
    pub fn next(&mut self, plan: &Plan, events: &Flags, from: u64) -> Option<u64>
        requires own { IsFor plan.now self.old }
        requires from { self.old.from ≤ from }
        requires range { from ≤ tic_limit + 1 }
        ensures next { (s : StateOf) → s.events ≡ events.now → FindsLeast (IsStirred (plan_of plan.now) s from) result }
        ensures own { IsFor plan.now self.new }
        ensures from { self.new.from ≡ from }
    {
        if self.from < from {
            pass(plan.reads.as_slice(), &mut self.reads, from - 1);
            self.from = from;
        }
        let read = self.reads.least();
        let event = next_event(plan.events.as_slice(), events, from);
        known(read.min(event))
    }

    /// Does the reads of a tic that is not passed, in the order of their lines, and then its events,
    /// in the order in which the input added them. The tic is passed then. Takes no memory.
    pub fn fire<M: Cells>(&mut self, plan: &Plan, state: &mut State<M>, asked: &mut Asked, tic: u64)
        requires own { IsFor plan.now self.old }
        requires from { self.old.from ≤ tic }
        requires memory { IsMemoryOf plan.now.program (M.numbers state.old.memory) (M.scalars state.old.memory) }
        requires tic { tic ≤ tic_limit }
        ensures fired { asking M.numbers state.new asked.new
            ≡ fired_of (plan_of plan.now) tic (asking M.numbers state.old asked.old) }
        ensures memory { IsMemoryOf plan.now.program (M.numbers state.new.memory) (M.scalars state.new.memory) }
        ensures own { IsFor plan.now self.new }
        ensures from { self.new.from ≡ tic + 1 }
    {
        reads_done(plan, state, asked, &mut self.reads, tic);
        events_done(plan, state, asked, tic);
        self.from = tic + 1;
    }
}
