//! One thread beside the tics: what it publishes, and what it takes.

ghost use Rattle.std.specs.Prelude.{◌≡◌, ◌+◌, ◌<◌, ◌≤◌, false, length, OnOk, slice_set};
ghost use Rattle.trick_exec_posts.specs.Flight.{AsksNothing, GoesWith, IsOver};
ghost use Rattle.trick_exec_posts.specs.Stations.{IsSeat, record_of};
ghost use Rattle.trick_model.specs.Beside.{publish as publish_of, take as take_of};
ghost use Rattle.trick_model.specs.PlanOf.{plan_of};
ghost use Rattle.trick_model.specs.State.{nothing_taken, seen, taken_at};
ghost use Rattle.trick_base.specs.Time.{tic_limit};

use crate::frames::work_at;
use crate::{Station, records};
use std::alloc::{AllocError, Global};
use std::mem;
use trick_base::Items;
use trick_lang::Cells;
use trick_model::{State, Taken, laws};
use trick_post_work::Posts;
use trick_post_work::laws::started_work_is_published;

/// A station at its place among the threads beside the tics.
#[derive(Clone, Copy)]
pub(crate) struct Seat<'a> {
    pub(crate) place: usize,
    pub(crate) station: &'a Station,
}

// Fills the record of a thread.
fn fill<M: Cells>(alloc: Global, seat: Seat, state: &mut State<M>) -> Result<(), AllocError>
    requires { seat.place < length state.old.taken }
    ensures state { OnOk result (seen M.numbers state.new ≡ record (seen M.numbers state.old) {
      taken = slice_set state.old.taken seat.entry.place
          (record_of (M.numbers state.old.memory) state.old.jobs seat.entry.station.now);
    }) }
    ensures memory { state.new.memory ≡ state.old.memory }
{
    let mut all = mem::replace(&mut state.taken, Items::new(alloc)).into_vec();
    records::fill(
        &state.memory,
        &state.jobs,
        seat.station,
        &mut all[seat.place],
    )?;
    state.taken = Items::from_vec(all);
    Ok(())
}

// Empties the record of a place.
fn empty(alloc: Global, records: &mut Items<Taken>, place: usize)
    requires { place < length records.old }
    ensures { records.new ≡ slice_set records.old place nothing_taken }
{
    let mut all = mem::replace(records, Items::new(alloc)).into_vec();
    records::empty(&mut all[place]);
    *records = Items::from_vec(all);
}

/// Publishes what a thread was given, where it holds something. Takes no memory.
pub(crate) fn publish<M: Cells, P: Posts>(
    alloc: Global,
    seat: Seat,
    tic: u64,
    state: &mut State<M>,
    posts: &mut P,
)
    requires seat { IsSeat (plan_of (P.plan posts.old)) seat.place seat.station.now }
    requires over { IsOver seat.station.now.thread.process seat.station.now.thread.cycle tic }
    requires tic { tic ≤ tic_limit + 1 }
    requires goes { GoesWith (P.plan posts.old) (P.in_flight posts.old) tic (seen M.numbers state.old)
        (M.scalars state.old.memory) }
    ensures state { seen M.numbers state.new ≡ publish_of (plan_of (P.plan posts.old)) seat.entry.place
        seat.entry.station.now.thread tic (seen M.numbers state.old) }
    ensures goes { GoesWith (P.plan posts.new) (P.in_flight posts.new) tic (seen M.numbers state.new)
        (M.scalars state.new.memory) }
    ensures asks { AsksNothing P.Posts posts.old posts.new }
{
    laws::plans_are_sound();
    started_work_is_published();
    if !state.is_held(seat.place) {
        return;
    }
    let number = seat.station.thread.number;
    posts.finish(number, &mut state.memory, &mut state.faults, tic);
    empty(alloc, &mut state.taken, seat.place);
}

/// Gives a thread that holds nothing the cells of its scope and the flags of its jobs, and has it start
/// the work that it has from a tic on. The only refusal is for want of memory; the room of a record is
/// made where it is filled first.
pub(crate) fn take<M: Cells, P: Posts>(
    alloc: Global,
    seat: Seat,
    tic: u64,
    state: &mut State<M>,
    posts: &mut P,
) -> Result<(), AllocError>
    requires seat { IsSeat (plan_of (P.plan posts.old)) seat.place seat.station.now }
    requires empty { (taken_at (seen M.numbers state.old) seat.place).held ≡ false }
    requires tic { tic ≤ tic_limit + 1 }
    requires goes { GoesWith (P.plan posts.old) (P.in_flight posts.old) tic (seen M.numbers state.old)
        (M.scalars state.old.memory) }
    ensures state { OnOk result (seen M.numbers state.new ≡ take_of (plan_of (P.plan posts.old)) seat.entry.place
        seat.entry.station.now.thread (seen M.numbers state.old)) }
    ensures goes { OnOk result (GoesWith (P.plan posts.new) (P.in_flight posts.new) tic (seen M.numbers state.new)
        (M.scalars state.new.memory)) }
    ensures asks { AsksNothing P.Posts posts.old posts.new }
{
    fill(alloc, seat, state)?;
    let thread = seat.station.thread;
    let taken = &state.taken.as_slice()[seat.place];
    posts.start(thread.number, taken, work_at(thread, tic));
    Ok(())
}
