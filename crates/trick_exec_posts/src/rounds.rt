//! The rounds of asynchronous threads: which are published in a run frame, and which start after it.

ghost use Rattle.std.specs.List.{position};
ghost use Rattle.std.specs.Prelude.{◌≡◌, ◌==◌, ◌∷◌, [], OnOk};
ghost use Rattle.trick_exec_posts.specs.Flight.{AsksNothing, GoesWith};
ghost use Rattle.trick_exec_posts.specs.Stations.{AreStations, IsSeat};
ghost use Rattle.trick_exec_posts.specs.declared.station.Station.{Station as StationValue};
ghost use Rattle.trick_model.specs.Beside.{publish_round as publish_round_of, start_round as start_round_of, start_rounds as start_rounds_of};
ghost use Rattle.trick_model.specs.PlanOf.{plan_of};
ghost use Rattle.trick_model.specs.State.{seen};
ghost use Rattle.trick_model.specs.Turn.{publish_all as publish_all_of};

use crate::Station;
use crate::seat::{Seat, publish, take};
use std::alloc::{AllocError, Global};
use trick_lang::Cells;
use trick_model::{Entry, State};
use trick_post_work::Posts;

// The place of the thread of a number.
fn find(stations: &[Station], number: u8) -> Option<usize>
    ensures { result ≡ position (λ (station : StationValue). station.thread.number == number) stations.now }
{
    stations
        .iter()
        .position(|station| station.thread.number == number)
}

// Publishes the round of the thread of a number, where it has one in flight.
fn publish_round<M: Cells, P: Posts>(
    alloc: Global,
    stations: &[Station],
    number: u8,
    state: &mut State<M>,
    posts: &mut P,
)
    requires stations { AreStations (plan_of (P.plan posts.old)) stations.now }
    requires goes { GoesWith (P.plan posts.old) (P.in_flight posts.old) state.old.tic (seen M.numbers state.old)
        (M.scalars state.old.memory) }
    ensures state { seen M.numbers state.new
        ≡ publish_round_of (plan_of (P.plan posts.old)) number (seen M.numbers state.old) }
    ensures goes { GoesWith (P.plan posts.new) (P.in_flight posts.new) state.new.tic (seen M.numbers state.new)
        (M.scalars state.new.memory) }
    ensures asks { AsksNothing P.Posts posts.old posts.new }
{
    let Some(place) = find(stations, number) else {
        return;
    };
    let station = &stations[place];
    if station.thread.process.is_async() {
        let tic = state.tic;
        publish(alloc, Seat { place, station }, tic, state, posts);
    }
}

// Publishes the round that an entry publishes, if it publishes one.
fn publish_entry<M: Cells, P: Posts>(
    alloc: Global,
    stations: &[Station],
    entry: &Entry,
    state: &mut State<M>,
    posts: &mut P,
)
    requires stations { AreStations (plan_of (P.plan posts.old)) stations.now }
    requires goes { GoesWith (P.plan posts.old) (P.in_flight posts.old) state.old.tic (seen M.numbers state.old)
        (M.scalars state.old.memory) }
    ensures state { seen M.numbers state.new
        ≡ publish_all_of (plan_of (P.plan posts.old)) (entry.now ∷ []) (seen M.numbers state.old) }
    ensures goes { GoesWith (P.plan posts.new) (P.in_flight posts.new) state.new.tic (seen M.numbers state.new)
        (M.scalars state.new.memory) }
    ensures asks { AsksNothing P.Posts posts.old posts.new }
{
    match entry {
        Entry::Publish { thread } => publish_round(alloc, stations, *thread, state, posts),
        Entry::Join { .. } | Entry::Said { .. } | Entry::Leave { .. } => {}
    }
}

/// Publishes the rounds that these entries publish, in their order, at the top of a run frame: each whose
/// thread is asynchronous and has one in flight. Takes no memory.
pub fn publish_all<M: Cells, P: Posts>(
    alloc: Global,
    stations: &[Station],
    entries: &[Entry],
    state: &mut State<M>,
    posts: &mut P,
)
    requires stations { AreStations (plan_of (P.plan posts.old)) stations.now }
    requires goes { GoesWith (P.plan posts.old) (P.in_flight posts.old) state.old.tic (seen M.numbers state.old)
        (M.scalars state.old.memory) }
    ensures state { seen M.numbers state.new
        ≡ publish_all_of (plan_of (P.plan posts.old)) entries.now (seen M.numbers state.old) }
    ensures goes { GoesWith (P.plan posts.new) (P.in_flight posts.new) state.new.tic (seen M.numbers state.new)
        (M.scalars state.new.memory) }
    ensures asks { AsksNothing P.Posts posts.old posts.new }
{
    for entry in entries {
        publish_entry(alloc, stations, entry, state, posts);
    }
}

// Starts a round of a thread that is asynchronous and holds nothing.
fn start_round<M: Cells, P: Posts>(
    alloc: Global,
    seat: Seat,
    state: &mut State<M>,
    posts: &mut P,
) -> Result<(), AllocError>
    requires seat { IsSeat (plan_of (P.plan posts.old)) seat.place seat.station.now }
    requires goes { GoesWith (P.plan posts.old) (P.in_flight posts.old) state.old.tic (seen M.numbers state.old)
        (M.scalars state.old.memory) }
    ensures state { OnOk result (seen M.numbers state.new ≡ start_round_of (plan_of (P.plan posts.old))
        seat.entry.place seat.entry.station.now.thread (seen M.numbers state.old)) }
    ensures goes { OnOk result (GoesWith (P.plan posts.new) (P.in_flight posts.new) state.new.tic
        (seen M.numbers state.new)
        (M.scalars state.new.memory)) }
    ensures asks { AsksNothing P.Posts posts.old posts.new }
{
    if !seat.station.thread.process.is_async() {
        return Ok(());
    }
    if state.is_held(seat.place) {
        return Ok(());
    }
    let tic = state.tic;
    take(alloc, seat, tic, state, posts)?;
    Ok(())
}

/// Starts a round of each asynchronous thread that has nothing in flight, in thread order, after a run
/// frame. The only refusal is for want of memory, and comes only where a record needs room that it never
/// had; the state is of no use then.
pub fn start_rounds<M: Cells, P: Posts>(
    alloc: Global,
    stations: &[Station],
    state: &mut State<M>,
    posts: &mut P,
) -> Result<(), AllocError>
    requires stations { AreStations (plan_of (P.plan posts.old)) stations.now }
    requires goes { GoesWith (P.plan posts.old) (P.in_flight posts.old) state.old.tic (seen M.numbers state.old)
        (M.scalars state.old.memory) }
    ensures state { OnOk result (seen M.numbers state.new
        ≡ start_rounds_of (plan_of (P.plan posts.old)) (seen M.numbers state.old)) }
    ensures goes { OnOk result (GoesWith (P.plan posts.new) (P.in_flight posts.new) state.new.tic
        (seen M.numbers state.new)
        (M.scalars state.new.memory)) }
    ensures asks { AsksNothing P.Posts posts.old posts.new }
{
    for place in 0..stations.len() {
        let station = &stations[place];
        start_round(alloc, Seat { place, station }, state, posts)?;
    }
    Ok(())
}
