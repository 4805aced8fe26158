//! A yard before its shifts are started.
ghost use Rattle.std.specs.Arc.{arc_value};
ghost use Rattle.std.specs.Prelude.{◌≡◌, ◌+◌, ◌≤◌, [], IfOk, map, reverse, true, vec_capacity, vec_len};
ghost use Rattle.trick_crew_clerks.specs.Serving.{HasServed};
ghost use Rattle.trick_crew_clerks.specs.Staffs.{AreOfPost, AreShared, StayedAny, is_empty};
ghost use Rattle.trick_post.specs.Clerks.{clerked};
ghost use Rattle.trick_outside.specs.Causes.{HasCause};
ghost use Rattle.trick_turn.specs.Passes.{own};

use crate::shift::Shift;
use crate::staff::{Staff, start_each};
use crate::yard::Yard;
use std::alloc::{AllocError, Global};
use std::sync::{Arc, Wait};
use std::thread::Threads;
use trick_model::Planned;
use trick_outside::{Gate, Spawner};
use trick_post::{Clerk, Desk, Held, Post};

/// A desk and the shift of each of its clerks, none of which was started yet, with room for all of them.
#[derive(Drop)]
pub struct Roster<
    P: Planned + Send + 'static,
    G: Gate + Send + Sync + Drop + 'static,
    R: Threads + Wait + Copy + Send + Drop + 'static,
> {
    rt: R,
    desk: Desk<P, R>,
    // By rising number of the thread.
    shifts: Vec<Shift<P, G, R>>,
    staff: Staff<P, G, R>,
    pub ghost of_post: { ∥ AreOfPost (arc_value desk.rack.lock) shifts.items ∥₁ },
    pub ghost nobody_here: { is_empty staff.here.items ≡ true },
    pub ghost nobody_away: { is_empty staff.away.items ≡ true },
    pub ghost here_room: { vec_len staff.here + vec_len shifts ≤ vec_capacity staff.here },
    pub ghost away_room: { vec_len staff.away + vec_len shifts ≤ vec_capacity staff.away },
}

// A shift for each of these clerks, in their order.
fn shifts_for<P: Planned, G: Gate + Drop, R: Wait + Copy + Drop>(
    rt: R,
    alloc: Global,
    clerks: Vec<Clerk<P>>,
    gate: &Arc<G, Global>,
) -> Result<Vec<Shift<P, G, R>>, AllocError>
    ensures { IfOk result (λ shifts. map (λ s. s.clerk) shifts.items ≡ clerks.items) }
{
    let mut shifts = Vec::with_capacity(alloc, clerks.len())?;
    for clerk in clerks {
        shifts.push(Shift::new(rt, clerk, gate)?)?;
    }
    Ok(shifts)
}

// Room for so many shifts in each list.
fn room_for<
    P: Planned + Send + 'static,
    G: Gate + Send + Sync + Drop + 'static,
    R: Threads + Wait + Copy + Send + Drop + 'static,
>(alloc: Global, many: usize) -> Result<Staff<P, G, R>, AllocError>
    ensures nobody_here { IfOk result (λ staff. staff.here.items ≡ []) }
    ensures nobody_away { IfOk result (λ staff. staff.away.items ≡ []) }
    ensures here_room { IfOk result (λ staff. vec_len staff.here + many ≤ vec_capacity staff.here) }
    ensures away_room { IfOk result (λ staff. vec_len staff.away + many ≤ vec_capacity staff.away) }
{
    let here = Vec::with_capacity(alloc, many)?;
    let away = Vec::with_capacity(alloc, many)?;
    Ok(Staff { here, away })
}

impl<
    P: Planned + Send + 'static,
    G: Gate + Send + Sync + Drop + 'static,
    R: Threads + Wait + Copy + Send + Drop + 'static,
> Roster<P, G, R> {
    /// The roster of a plan: a desk with nothing started, and a shift for the clerk of each must-finish and
    /// asynchronous thread, which will pass this gate. It takes all memory that the yard ever needs, but what the starts
    /// take.
    pub fn new(
        rt: R,
        alloc: Global,
        held: Held<P>,
        gate: &Arc<G, Global>,
    ) -> Result<Self, AllocError>
        ensures plan { IfOk result (λ roster. arc_value roster.desk.rack.held.accepted ≡ arc_value held.accepted) }
        ensures none { IfOk result (λ roster. own roster.desk.rack.pass ≡ []) }
        ensures late { IfOk result (λ roster. roster.desk.late ≡ 0) }
        ensures threads { IfOk result (λ roster. map (λ s. s.clerk.thread) roster.shifts.items
            ≡ clerked (arc_value held.accepted).plan) }
    {
        let (desk, clerks) = Post::new(rt, alloc, held)?;
        let shifts = shifts_for(rt, alloc, clerks, gate)?;
        let staff = room_for(alloc, shifts.len())?;
        let roster = Roster {
            rt,
            desk,
            shifts,
            staff,
        };
        Ok(roster)
    }

    /// Starts each shift in a thread of its own, as far as the spawner and the system admit it. A shift stays only where
    /// the spawner's count of refusals rose. It takes no memory but what a start takes.
    pub fn start<S: Spawner>(self, alloc: Global, spawner: &mut S) -> Yard<P, G, R>
        ensures desk { result.desk ≡ self.desk }
        ensures shared { AreShared HasServed self.shifts.items (reverse result.staff.here.items)
            (reverse result.staff.away.items) }
        ensures cause { HasCause (S.failures spawner.old) (S.failures spawner.new)
            (StayedAny result.staff.here.items) }
    {
        let Roster {
            rt,
            desk,
            shifts,
            mut staff,
        } = self;
        start_each(&rt, alloc, spawner, shifts, &mut staff);
        let yard = Yard { rt, desk, staff };
        yard
    }
}
