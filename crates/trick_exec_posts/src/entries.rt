//! The entries that publish all rounds in flight.

ghost use Rattle.std.specs.Prelude.{◌≡◌, ◌++◌, OnOk};
ghost use Rattle.trick_exec_posts.specs.Rounds.{publication_of};
ghost use Rattle.trick_exec_posts.specs.Stations.{AreStations};
ghost use Rattle.trick_model.specs.Plan.{threads_beside};
ghost use Rattle.trick_model.specs.PlanOf.{plan_of};
ghost use Rattle.trick_model.specs.Run.{all_published};
ghost use Rattle.trick_model.specs.State.{seen};
ghost use Rattle.trick_model.specs.declared.plan.Plan.{Plan as PlanValue};

use crate::Station;
use crate::seat::Seat;
use std::alloc::AllocError;
use trick_base::Items;
use trick_lang::Cells;
use trick_model::{Entry, State};

// Adds the publication of a thread's round, if one is in flight.
fn push_publication<M: Cells>(
    seat: Seat,
    state: &State<M>,
    entries: &mut Items<Entry>,
) -> Result<(), AllocError>
    ensures { OnOk result (entries.new ≡ entries.old
        ++ publication_of (seen M.numbers state.now) seat.entry.place seat.entry.station.now.thread) }
{
    let thread = seat.station.thread;
    if !thread.process.is_async() {
        return Ok(());
    }
    if !state.is_held(seat.place) {
        return Ok(());
    }
    entries.push(Entry::Publish {
        thread: thread.number,
    })?;
    Ok(())
}

/// Puts the publications of all rounds in flight, in thread order, in place of what `entries` had: those of
/// a run frame without clients. The only refusal is for want of memory, and comes only where the list
/// needs room that it never had.
pub fn publications<M: Cells>(
    stations: &[Station],
    state: &State<M>,
    entries: &mut Items<Entry>,
) -> Result<(), AllocError>
    ensures { (plan : PlanValue) → AreStations (plan_of plan) stations.now → OnOk result (entries.new
        ≡ all_published (plan_of plan) (threads_beside (plan_of plan)) (seen M.numbers state.now)) }
{
    entries.clear();
    for place in 0..stations.len() {
        let station = &stations[place];
        push_publication(Seat { place, station }, state, entries)?;
    }
    Ok(())
}
