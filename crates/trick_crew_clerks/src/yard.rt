//! A desk with the shifts of its clerks.
ghost use Rattle.std.specs.Arc.{arc_value};
ghost use Rattle.std.specs.Prelude.{◌≡◌, All, true};
ghost use Rattle.trick_crew_clerks.specs.Staffs.{AreOfPost, HasEnded, IsTakenIn, RunsAtPost};
ghost use Rattle.trick_post_places.specs.Histories.{has_shut};
ghost use Rattle.trick_turn.specs.Passes.{own, seen};
ghost use mathlib.Core.List.{IsPrefix};

use crate::ending::{take_each_in, wait_for_each};
use crate::staff::Staff;
use crate::tending::attend_each;
use std::sync::Wait;
use std::thread::Threads;
use trick_lang::Cells;
use trick_model::{Faults, Planned, Taken};
use trick_outside::Gate;
use trick_post::{Desk, ShutPost};
use trick_post_work::{Job1, Posted, Posts};

/// A desk, and the shifts of its clerks. What waits for a clerk whose shift was not started is done by the caller, in
/// `poll` and in `finish`. Each thread of a yard ends in [`Yard::close`].
#[derive(Drop)]
pub struct Yard<
    P: Planned + Send + 'static,
    G: Gate + Send + Sync + Drop + 'static,
    R: Threads + Wait + Copy + Send + Drop + 'static,
> {
    pub(crate) rt: R,
    pub desk: Desk<P, R>,
    pub(crate) staff: Staff<P, G, R>,
    pub ghost here_of_post: { ∥ AreOfPost (arc_value desk.rack.lock) staff.here.items ∥₁ },
    pub ghost away_of_post: { ∥ All (RunsAtPost (arc_value desk.rack.lock)) staff.away.items ∥₁ },
}

impl<
    P: Planned + Send + 'static,
    G: Gate + Send + Sync + Drop + 'static,
    R: Threads + Wait + Copy + Send + Drop + 'static,
> Yard<P, G, R> {
    /// Ends the yard: the post is shut, each thread is waited for, and all clerks are taken in.
    pub fn close(self) -> ShutPost<P>
        ensures shut { has_shut (own result.pass) ≡ true }
        ensures desk { IsPrefix (seen self.desk.rack.pass) (seen result.pass) }
        ensures here { All (IsTakenIn result.pass) self.staff.here.items }
        ensures away { All (HasEnded result.pass) self.staff.away.items }
    {
        let Yard { rt, desk, staff } = self;
        let Staff { here, away } = staff;
        let mut post = desk.shut();
        take_each_in(&mut post, here);
        wait_for_each(&rt, &mut post, away);
        post
    }
}

impl<
    P: Planned + Send + 'static,
    G: Gate + Send + Sync + Drop + 'static,
    R: Threads + Wait + Copy + Send + Drop + 'static,
> Posts for Yard<P, G, R> {
    ghost use Rattle.std.specs.Arc.{arc_value};
    ghost use Rattle.std.specs.Prelude.{◌≡◌};
    ghost use Rattle.trick_crew_clerks.specs.Tending.{AreTended, WasAsked, tended_join, tended_none};
    ghost use Rattle.trick_post_places.specs.Histories.{started_in};
    ghost use Rattle.trick_post.specs.Lateness.{counts_join, late_through, rose_counted};
    ghost use Rattle.trick_turn.specs.Passes.{own};
    ghost use Rattle.std.proofs.Common.{refl};

    ghost plan = { λ yard. (arc_value yard.desk.rack.held.accepted).plan };

    ghost in_flight = { λ yard. started_in (own yard.desk.rack.pass) };

    ghost lateness = { λ yard. yard.desk.late };

    // The desk counts the polls, and for a clerk that stayed nothing waits once its thread was asked for.
    ghost asked = { λ old polls new. (new.desk.late ≡ late_through old.desk.late polls)
        × AreTended (WasAsked polls) old.staff.here.items new.staff.here.items };

    fn start(&mut self, thread: u8, taken: &Taken, work: Job1) {
        self.desk.start(thread, taken, work);
    }

    fn poll(&mut self, thread: u8, turn: u64) -> Posted {
        attend_each(&mut self.staff.here, thread);
        self.desk.poll(thread, turn)
    }

    fn late(&self) -> u64 {
        self.desk.late()
    }

    fn finish<M: Cells>(&mut self, thread: u8, memory: &mut M, faults: &mut Faults, tic: u64) {
        attend_each(&mut self.staff.here, thread);
        self.desk.finish(thread, memory, faults, tic);
    }

    ghost asked_none = { λ yard. (refl, tended_none yard.staff.here.items) };

    ghost asked_join = { λ first second third early late one two. (
      counts_join first.desk.late second.desk.late third.desk.late early late one.0 two.0,
      tended_join early late first.staff.here.items second.staff.here.items third.staff.here.items one.1 two.1,
    ) };

    ghost asked_late = { λ old new polls counted. rose_counted old.desk.late new.desk.late polls counted.0 };
}
