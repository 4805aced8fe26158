//! The desk, which hands work to clerks and publishes what comes of it.
ghost use Rattle.std.specs.Arc.{arc_value};
ghost use Rattle.std.specs.Prelude.{◌≡◌, ◌≤◌, IsSome};
ghost use Rattle.trick_post_places.specs.Answers.{AsksAt, HasAdded};
ghost use Rattle.trick_post_places.specs.Histories.{desk_seat, started_in};
ghost use Rattle.trick_post.specs.Lateness.{late_after};
ghost use Rattle.trick_post_trays.specs.Trays.{IsWorkerOf};
ghost use Rattle.trick_turn.specs.Passes.{own};

use crate::rack::Rack;
use crate::shut_post::ShutPost;
use std::sync::Wait;
use trick_lang::Cells;
use trick_model::{Faults, Planned, Taken};
use trick_post_places::Event;
use trick_post_trays::Worker;
use trick_post_work::{Job1, Posted, Posts};

/// The desk of a post: the work of must-finish and asynchronous threads is handed to clerks, and what comes of it is
/// published here. Whatever the clerks do, that is what one thread makes of what was handed in.
#[derive(Drop)]
pub struct Desk<P: Planned, R: Wait + Drop> {
    rt: R,
    pub rack: Rack<P>,
    worker: Worker,
    /// How often a poll found nothing ready. It stands still at 2^64 - 1.
    pub late: u64,
    pub ghost worker_fits: { IsWorkerOf (arc_value rack.held.accepted).plan worker },
}

impl<P: Planned, R: Wait + Drop> Desk<P, R> {
    pub(crate) fn new(rt: R, rack: Rack<P>, worker: Worker) -> Self
        requires { IsWorkerOf (arc_value rack.held.accepted).plan worker }
        ensures rack { result.rack ≡ rack }
        ensures late { result.late ≡ 0 }
    {
        Desk {
            rt,
            rack,
            worker,
            late: 0,
        }
    }

    /// Whether what was handed to a thread is ready: exactly where its clerk has put it back. Where it is not, `late`
    /// rises. It waits for the turn alone, and adds nothing to the history.
    pub fn ask(&mut self, thread: u8) -> Posted
        requires started { IsSome (started_in (own self.old.rack.pass) thread) }
        ensures answer { AsksAt thread self.old.rack.pass self.new.rack.pass result }
        ensures held { self.new.rack.held ≡ self.old.rack.held }
        ensures lock { self.new.rack.lock ≡ self.old.rack.lock }
        ensures late { self.new.late ≡ late_after self.old.late result }
        ensures rises { self.old.late ≤ self.new.late }
    {
        let posted = self.rack.ask(&self.rt, thread);
        if let Posted::NotYet = posted {
            self.late = self.late.saturating_add(1);
        }
        posted
    }

    /// Shuts the post. The clerks find it shut from now on, and are to be taken in once they have ended. What the desk
    /// has seen then is all that was done until the post was shut.
    pub fn shut(self) -> ShutPost<P>
        ensures lock { result.lock ≡ self.rack.lock }
        ensures adds { HasAdded self.rack.pass result.pass (Event.Shut desk_seat) }
    {
        let Desk { rt, rack, .. } = self;
        rack.shut(&rt)
    }
}

impl<P: Planned, R: Wait + Drop> Posts for Desk<P, R> {
    ghost use Rattle.std.proofs.Common.{◌∙◌, refl};
    ghost use Rattle.std.specs.Arc.{arc_value};
    ghost use Rattle.std.specs.Prelude.{◌≡◌};
    ghost use Rattle.trick_post_places.specs.Histories.{started_in};
    ghost use Rattle.trick_post.specs.Lateness.{counts_join, late_through, rose_counted};
    ghost use Rattle.trick_turn.specs.Passes.{own};

    ghost plan = { λ desk. (arc_value desk.rack.held.accepted).plan };

    ghost in_flight = { λ desk. started_in (own desk.rack.pass) };

    ghost lateness = { λ desk. desk.late };

    // It is a desk of the same post, too.
    ghost asked = { λ old polls new.
        (new.late ≡ late_through old.late polls) × (new.rack.lock ≡ old.rack.lock) };

    fn start(&mut self, thread: u8, taken: &Taken, work: Job1) {
        self.rack.start(&self.rt, thread, taken, work);
    }

    fn poll(&mut self, thread: u8, _turn: u64) -> Posted {
        self.ask(thread)
    }

    fn late(&self) -> u64 {
        self.late
    }

    fn finish<M: Cells>(&mut self, thread: u8, memory: &mut M, faults: &mut Faults, tic: u64) {
        self.rack.fetch(&self.rt, thread);
        let rack = &self.rack;
        let held = &rack.held;
        let plan = held.accepted.plan();
        let parcel = &rack.parcels[thread as usize];
        self.worker.publish(plan, parcel, memory, faults, tic);
    }

    ghost asked_none = { λ desk. (refl, refl) };

    ghost asked_join = { λ first second third early late one two.
        (counts_join first.late second.late third.late early late one.0 two.0, two.1 ∙ one.1) };

    ghost asked_late = { λ old new polls counted. rose_counted old.late new.late polls counted.0 };
}
