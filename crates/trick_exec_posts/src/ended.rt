//! Must-finish threads, at the tics at which their cycles end.

ghost use Rattle.std.specs.Prelude.{◌≡◌, ◌+◌, ◌≤◌, false, IsTrue, length, OnOk};
ghost use Rattle.trick_exec_posts.specs.Flight.{AsksNothing, GoesWith, HoldNothing, ended_published, ended_taken};
ghost use Rattle.trick_exec_posts.specs.Stations.{AreStations, IsSeat};
ghost use Rattle.trick_model.specs.Beside.{ends_at as ends_of, must_finish as must_finish_of, publish as publish_of, take as take_of, where_ends};
ghost use Rattle.trick_model.specs.Plan.{threads_beside};
ghost use Rattle.trick_model.specs.PlanOf.{plan_of};
ghost use Rattle.trick_model.specs.State.{seen, taken_at};
ghost use Rattle.trick_base.specs.Time.{tic_limit};

use crate::Station;
use crate::frames::ends_at;
use crate::seat::{Seat, publish, take};
use std::alloc::{AllocError, Global};
use trick_lang::Cells;
use trick_model::State;
use trick_post_work::Posts;

// A thread publishes, where its cycle ends at a tic.
fn publish_end<M: Cells, P: Posts>(
    alloc: Global,
    seat: Seat,
    tic: u64,
    state: &mut State<M>,
    posts: &mut P,
)
    requires seat { IsSeat (plan_of (P.plan posts.old)) seat.place seat.station.now }
    requires tic { tic ≤ tic_limit }
    requires goes { GoesWith (P.plan posts.old) (P.in_flight posts.old) tic (seen M.numbers state.old)
        (M.scalars state.old.memory) }
    ensures state { seen M.numbers state.new
        ≡ where_ends (λ place thread. publish_of (plan_of (P.plan posts.old)) place thread tic) tic seat.entry.place
        seat.entry.station.now.thread (seen M.numbers state.old) }
    ensures goes { GoesWith (P.plan posts.new) (P.in_flight posts.new) tic (seen M.numbers state.new)
        (M.scalars state.new.memory) }
    ensures asks { AsksNothing P.Posts posts.old posts.new }
{
    if ends_at(tic, seat.station.thread) {
        publish(alloc, seat, tic, state, posts);
    }
}

// The threads whose cycle ends at a tic publish, in thread order.
fn publish_ended<M: Cells, P: Posts>(
    alloc: Global,
    stations: &[Station],
    tic: u64,
    state: &mut State<M>,
    posts: &mut P,
)
    requires stations { AreStations (plan_of (P.plan posts.old)) stations.now }
    requires tic { tic ≤ tic_limit }
    requires goes { GoesWith (P.plan posts.old) (P.in_flight posts.old) tic (seen M.numbers state.old)
        (M.scalars state.old.memory) }
    ensures state { seen M.numbers state.new
        ≡ ended_published (plan_of (P.plan posts.old)) tic (seen M.numbers state.old) }
    ensures goes { GoesWith (P.plan posts.new) (P.in_flight posts.new) (tic + 1) (seen M.numbers state.new)
        (M.scalars state.new.memory) }
    ensures empty { HoldNothing (plan_of (P.plan posts.old)) tic 0
        (length (threads_beside (plan_of (P.plan posts.old)))) (seen M.numbers state.new) }
    ensures asks { AsksNothing P.Posts posts.old posts.new }
{
    for place in 0..stations.len() {
        let station = &stations[place];
        publish_end(alloc, Seat { place, station }, tic, state, posts);
    }
}

// A thread that holds nothing takes, where its cycle ends at a tic.
fn take_end<M: Cells, P: Posts>(
    alloc: Global,
    seat: Seat,
    tic: u64,
    state: &mut State<M>,
    posts: &mut P,
) -> Result<(), AllocError>
    requires seat { IsSeat (plan_of (P.plan posts.old)) seat.place seat.station.now }
    requires tic { tic ≤ tic_limit }
    requires goes { GoesWith (P.plan posts.old) (P.in_flight posts.old) (tic + 1) (seen M.numbers state.old)
        (M.scalars state.old.memory) }
    requires empty { IsTrue (ends_of tic seat.station.now.thread)
        → (taken_at (seen M.numbers state.old) seat.place).held ≡ false }
    ensures state { OnOk result (seen M.numbers state.new ≡ where_ends (take_of (plan_of (P.plan posts.old))) tic
        seat.entry.place seat.entry.station.now.thread (seen M.numbers state.old)) }
    ensures goes { OnOk result (GoesWith (P.plan posts.new) (P.in_flight posts.new) (tic + 1)
        (seen M.numbers state.new) (M.scalars state.new.memory)) }
    ensures asks { AsksNothing P.Posts posts.old posts.new }
{
    if !ends_at(tic, seat.station.thread) {
        return Ok(());
    }
    take(alloc, seat, tic + 1, state, posts)?;
    Ok(())
}

// The threads whose cycle ends at a tic, and which hold nothing, take, in thread order.
fn take_ended<M: Cells, P: Posts>(
    alloc: Global,
    stations: &[Station],
    tic: u64,
    state: &mut State<M>,
    posts: &mut P,
) -> Result<(), AllocError>
    requires stations { AreStations (plan_of (P.plan posts.old)) stations.now }
    requires tic { tic ≤ tic_limit }
    requires goes { GoesWith (P.plan posts.old) (P.in_flight posts.old) (tic + 1) (seen M.numbers state.old)
        (M.scalars state.old.memory) }
    requires empty { HoldNothing (plan_of (P.plan posts.old)) tic 0
        (length (threads_beside (plan_of (P.plan posts.old)))) (seen M.numbers state.old) }
    ensures state { OnOk result (seen M.numbers state.new
        ≡ ended_taken (plan_of (P.plan posts.old)) tic (seen M.numbers state.old)) }
    ensures goes { OnOk result (GoesWith (P.plan posts.new) (P.in_flight posts.new) (tic + 1) (seen M.numbers state.new)
        (M.scalars state.new.memory)) }
    ensures asks { AsksNothing P.Posts posts.old posts.new }
{
    for place in 0..stations.len() {
        let station = &stations[place];
        take_end(alloc, Seat { place, station }, tic, state, posts)?;
    }
    Ok(())
}

/// The must-finish work of a tic: the threads whose cycle ends at it publish what they were given, and
/// then each of them takes its cells and flags and starts the work of its next cycle, each in thread
/// order. It asks a look at each thread beside the tics. The only refusal is for want of memory, and
/// comes only where a record needs room that it never had; the state is of no use then.
pub fn must_finish<M: Cells, P: Posts>(
    alloc: Global,
    stations: &[Station],
    tic: u64,
    state: &mut State<M>,
    posts: &mut P,
) -> Result<(), AllocError>
    requires stations { AreStations (plan_of (P.plan posts.old)) stations.now }
    requires tic { tic ≤ tic_limit }
    requires goes { GoesWith (P.plan posts.old) (P.in_flight posts.old) tic (seen M.numbers state.old)
        (M.scalars state.old.memory) }
    ensures state { OnOk result (seen M.numbers state.new
        ≡ must_finish_of (plan_of (P.plan posts.old)) tic (seen M.numbers state.old)) }
    ensures goes { OnOk result (GoesWith (P.plan posts.new) (P.in_flight posts.new) (tic + 1) (seen M.numbers state.new)
        (M.scalars state.new.memory)) }
    ensures asks { AsksNothing P.Posts posts.old posts.new }
{
    publish_ended(alloc, stations, tic, state, posts);
    take_ended(alloc, stations, tic, state, posts)?;
    Ok(())
}
