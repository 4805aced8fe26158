//! The desk's side of the places: what it hands to clerks, and takes back.
ghost use Rattle.std.specs.Arc.{arc_value};
ghost use Rattle.std.specs.List.{slice_index_or};
ghost use Rattle.std.specs.Prelude.{◌≡◌, ◌<◌, IsSome, None, Some, false, true};
ghost use Rattle.trick_post_places.specs.Answers.{AsksAt, HasAdded, HasNothing, HasTakenBack, posted_of};
ghost use Rattle.trick_post_places.specs.Histories.{desk_seat, has_shut, started_in};
ghost use Rattle.trick_model.specs.PlanOf.{plan_of};
ghost use Rattle.trick_post_work.specs.Work.{CanStart};
ghost use Rattle.trick_post_trays.specs.Outputs.{AreParcelsOf};
ghost use Rattle.trick_post_trays.specs.Trays.{held_in};
ghost use Rattle.trick_turn.specs.Passes.{IsPassOf, Rests, number_of, own};

use crate::held::Held;
use crate::shut_post::ShutPost;
use crate::turns::{end_start, end_turn};
use std::alloc::Global;
use std::marker::Brand;
use std::sync::{Arc, Wait};
use trick_model::{Planned, Taken};
use trick_post_places::{Event, Places, Stage};
use trick_post_trays::Parcel;
use trick_post_work::{Job1, Posted};
use trick_turn::{Nothing, Pass, TurnLock};

/// A parcel for each thread, and the pass by which they are handed over and taken back. Each call waits for the turn
/// alone, but for `fetch`.
#[derive(Drop)]
pub struct Rack<P: Planned> {
    pub(crate) held: Held<P>,
    pub(crate) lock: Arc<TurnLock<Places<P>>, Global>,
    /// What it has seen of the post's history and what it added, which only proofs read.
    pub pass: Pass<Places<P>>,
    // By the number of the thread.
    pub(crate) parcels: Vec<Parcel>,
    pub ghost of_lock: { IsPassOf (arc_value lock) pass },
    pub ghost rests: { Rests pass },
    pub ghost first: { number_of pass ≡ desk_seat },
    pub ghost not_shut: { has_shut (own pass) ≡ false },
    pub ghost fits: { AreParcelsOf (arc_value held.accepted).plan parcels.items },
}

// What a poll answers.
fn posted(ready: bool) -> Posted
    ensures { result ≡ posted_of ready }
{
    if ready { Posted::Ready } else { Posted::NotYet }
}

impl<P: Planned> Rack<P> {
    /// Whether what was handed to a thread is ready.
    pub(crate) fn ask<R: Wait>(&mut self, rt: &R, thread: u8) -> Posted
        requires started { IsSome (started_in (own self.old.pass) thread) }
        ensures held { self.new.held ≡ self.old.held }
        ensures lock { self.new.lock ≡ self.old.lock }
        ensures answer { AsksAt thread self.old.pass self.new.pass result }
    {
        let mut turn = self.pass.claim(rt, &self.lock);
        let ready = turn.value().is_ready(thread);
        turn.release::<Nothing>();
        posted(ready)
    }

    // Takes back what is ready, and says whether it was.
    fn take_back<R: Wait>(&mut self, rt: &R, thread: u8) -> bool
        requires started { IsSome (started_in (own self.old.pass) thread) }
        ensures held { self.new.held ≡ self.old.held }
        ensures lock { self.new.lock ≡ self.old.lock }
        ensures taken { result ≡ true → HasTakenBack (arc_value self.old.held.accepted).plan thread
            self.old.pass self.new.pass self.new.parcels.items }
        ensures nothing { result ≡ false → HasNothing thread
            self.old.pass self.new.pass self.old.parcels.items self.new.parcels.items }
    {
        let mut turn = self.pass.claim(rt, &self.lock);
        let parcel = &mut self.parcels[thread as usize];
        let ready = turn.value().finish(thread, parcel);
        end_turn::<P, Brand>(turn, thread, ready);
        ready
    }

    /// Takes back what was handed to a thread, once it is ready, and sleeps until then.
    pub(crate) fn fetch<R: Wait>(&mut self, rt: &R, thread: u8)
        requires started { IsSome (started_in (own self.old.pass) thread) }
        ensures held { self.new.held ≡ self.old.held }
        ensures lock { self.new.lock ≡ self.old.lock }
        ensures taken { HasTakenBack (arc_value self.old.held.accepted).plan thread
            self.old.pass self.new.pass self.new.parcels.items }
    {
        for _ in rt.forever() {
            let mark = self.lock.mark();
            if self.take_back(rt, thread) {
                return;
            }
            self.lock.rest(rt, mark);
        }
        unreachable!()
    }

    // Puts what a thread is handed into its parcel.
    fn fill(&mut self, thread: u8, taken: &Taken, work: Job1)
        requires right { CanStart (plan_of (arc_value self.old.held.accepted).plan) thread taken.now work }
        ensures held { self.new.held ≡ self.old.held }
        ensures lock { self.new.lock ≡ self.old.lock }
        ensures pass { self.new.pass ≡ self.old.pass }
        ensures holds { (d : Parcel) → held_in (slice_index_or self.new.parcels.items thread d).tray
            ≡ Some (record { taken = taken.now; work = work }) }
    {
        let held = &self.held;
        let plan = held.accepted.plan();
        self.parcels[thread as usize].tray.put(plan, taken, work);
    }

    // Puts the parcel of a thread at its place, where the thread's clerk finds it.
    fn send<R: Wait>(&mut self, rt: &R, thread: u8, taken: &Taken, work: Job1)
        requires right { CanStart (plan_of (arc_value self.old.held.accepted).plan) thread taken.now work }
        requires free { started_in (own self.old.pass) thread ≡ None }
        requires holds { (d : Parcel) → held_in (slice_index_or self.old.parcels.items thread d).tray
            ≡ Some (record { taken = taken.now; work = work }) }
        ensures held { self.new.held ≡ self.old.held }
        ensures lock { self.new.lock ≡ self.old.lock }
        ensures adds { HasAdded self.old.pass self.new.pass (Event.Start desk_seat thread taken.now work) }
    {
        let mut turn = self.pass.claim(rt, &self.lock);
        let parcel = &mut self.parcels[thread as usize];
        turn.value().swap(thread, parcel, Stage::Waiting);
        end_start::<P, Brand>(turn, thread, taken, work);
    }

    /// Hands a thread what it has to do.
    pub(crate) fn start<R: Wait>(&mut self, rt: &R, thread: u8, taken: &Taken, work: Job1)
        requires right { CanStart (plan_of (arc_value self.old.held.accepted).plan) thread taken.now work }
        requires free { started_in (own self.old.pass) thread ≡ None }
        ensures held { self.new.held ≡ self.old.held }
        ensures lock { self.new.lock ≡ self.old.lock }
        ensures adds { HasAdded self.old.pass self.new.pass (Event.Start desk_seat thread taken.now work) }
    {
        self.fill(thread, taken, work);
        self.send(rt, thread, taken, work);
    }

    /// Shuts the post.
    pub(crate) fn shut<R: Wait>(self, rt: &R) -> ShutPost<P>
        ensures lock { result.lock ≡ self.lock }
        ensures adds { HasAdded self.pass result.pass (Event.Shut desk_seat) }
    {
        let Rack { lock, mut pass, .. } = self;
        let mut turn = pass.claim(rt, &lock);
        turn.value().shut();
        turn.release::<Brand>();
        ShutPost { lock, pass }
    }
}
