//! A clerk, who does the work of one thread.
ghost use Rattle.std.specs.Arc.{arc_value};
ghost use Rattle.std.specs.Option.{option_map};
ghost use Rattle.std.specs.Prelude.{◌≡◌, ◌<◌, IfOk};
ghost use Rattle.trick_post_places.specs.Answers.{HasAdded, IsAtWork, PicksAt};
ghost use Rattle.trick_post.specs.Beginnings.{first_of, first_tic};
ghost use Rattle.trick_post.specs.Clerks.{IsClerkPass};
ghost use Rattle.trick_post_places.specs.Histories.{after, clerk_seat, stage_of};
ghost use Rattle.trick_post_places.specs.declared.picked.Picked.TheVariants as picked;
ghost use Rattle.trick_post_places.specs.declared.stage.Stage.TheVariants as stage;
ghost use Rattle.trick_lang.specs.declared.job.JobId.{JobId};
ghost use Rattle.trick_model.specs.PlanOf.{plan_of};
ghost use Rattle.trick_post_trays.specs.Calendars.{scheduled_of};
ghost use Rattle.trick_post_trays.specs.Outputs.{IsParcelOf};
ghost use Rattle.trick_post_trays.specs.Trays.{IsWorkerOf};
ghost use Rattle.trick_turn.specs.Passes.{IsPassOf, Rests, number_of, seen};

use crate::held::Held;
use crate::turns::end_turn;
use std::alloc::{AllocError, Global};
use std::marker::Brand;
use std::sync::{Arc, Wait};
use trick_lang::JobId;
use trick_model::Planned;
use trick_post_places::{Event, Picked, Places, Stage};
use trick_post_trays::{Parcel, Worker};
use trick_post_work::Job1;
use trick_turn::{Pass, TurnLock};

/// A clerk, who does the work of one thread. It may cross threads.
#[derive(Drop)]
pub struct Clerk<P: Planned> {
    pub(crate) held: Held<P>,
    pub(crate) lock: Arc<TurnLock<Places<P>>, Global>,
    /// What it has seen of the post's history and what it added, which only proofs read.
    pub pass: Pass<Places<P>>,
    pub thread: u8,
    parcel: Parcel,
    worker: Worker,
    pub ghost of_lock: { IsPassOf (arc_value lock) pass },
    pub ghost rests: { Rests pass },
    pub ghost seat: { number_of pass ≡ clerk_seat thread },
    pub ghost small: { thread < 16 },
    pub ghost fits: { IsParcelOf (arc_value held.accepted).plan thread parcel },
    pub ghost worker_fits: { IsWorkerOf (arc_value held.accepted).plan worker },
}

impl<P: Planned> Clerk<P> {
    /// The clerk of a thread, with nothing to do. This call alone takes memory.
    pub(crate) fn new(
        alloc: Global,
        held: &Held<P>,
        lock: &Arc<TurnLock<Places<P>>, Global>,
        pass: Pass<Places<P>>,
        thread: u8,
    ) -> Result<Self, AllocError>
        requires pass { IsClerkPass (arc_value lock.now) thread pass }
        requires small { thread < 16 }
        ensures plan { IfOk result (λ clerk. arc_value clerk.held.accepted ≡ arc_value held.now.accepted) }
        ensures lock { IfOk result (λ clerk. arc_value clerk.lock ≡ arc_value lock.now) }
        ensures pass { IfOk result (λ clerk. clerk.pass ≡ pass) }
        ensures thread { IfOk result (λ clerk. clerk.thread ≡ thread) }
    {
        let held = held.try_clone()?;
        let lock = Arc::try_clone(lock)?;
        let parcel = Parcel::new(alloc, held.accepted.plan(), thread)?;
        let worker = Worker::new(alloc, &*held.accepted)?;
        Ok(Clerk {
            held,
            lock,
            pass,
            thread,
            parcel,
            worker,
        })
    }

    /// Takes what waits for the thread, and waits for the turn alone.
    pub fn pick<R: Wait>(&mut self, rt: &R) -> Picked
        ensures held { self.new.held ≡ self.old.held }
        ensures lock { self.new.lock ≡ self.old.lock }
        ensures thread { self.new.thread ≡ self.old.thread }
        ensures answer { PicksAt self.old.thread self.old.pass self.new.pass result }
        ensures work { result ≡ picked.Got → IsAtWork self.old.thread self.new.pass self.new.parcel }
    {
        let mut turn = self.pass.claim(rt, &self.lock);
        let picked = turn.value().pick(self.thread, &mut self.parcel);
        end_turn::<P, Brand>(turn, self.thread, picked.is_got());
        picked
    }

    /// The tic at which the work begins that it has: the first one of a frame. A round is of no tic, and 0 stands for
    /// it, as where there is no work.
    pub fn tic(&self) -> u64
        ensures { result ≡ first_tic self.now.parcel.tray.work }
    {
        match self.parcel.tray.work {
            Some(Job1::Frame { first, .. }) => first,
            Some(Job1::Round) | None => 0,
        }
    }

    /// The first job of its thread, in key order, if the thread has one.
    pub fn first_job(&self) -> Option<JobId>
        ensures { option_map (λ (job : JobId). job.0) result
            ≡ first_of (scheduled_of (plan_of (arc_value self.now.held.accepted).plan) self.now.thread) }
    {
        self.parcel.tray.calendar.jobs.as_slice().first().copied()
    }

    /// Does the work that it picked, without the turn, and puts back what that comes to.
    pub fn put_back<R: Wait>(&mut self, rt: &R)
        requires work { IsAtWork self.old.thread self.old.pass self.old.parcel }
        ensures held { self.new.held ≡ self.old.held }
        ensures lock { self.new.lock ≡ self.old.lock }
        ensures thread { self.new.thread ≡ self.old.thread }
        ensures adds { HasAdded self.old.pass self.new.pass (Event.Back (clerk_seat self.old.thread) self.old.thread) }
        ensures ready { stage_of ((after (seen self.new.pass)).standings self.old.thread) ≡ stage.Ready }
    {
        let held = &self.held;
        let plan = held.accepted.plan();
        self.worker.work(plan, &mut self.parcel);
        let mut turn = self.pass.claim(rt, &self.lock);
        turn.value()
            .swap(self.thread, &mut self.parcel, Stage::Ready);
        end_turn::<P, Brand>(turn, self.thread, true);
    }

    /// How many releases so far may have added an entry. A mark to rest on.
    pub fn mark(&self) -> u64 {
        self.lock.mark()
    }

    /// Sleeps until a release after the mark may have added an entry. Take the mark first, then pick, and rest where
    /// there is nothing to do.
    pub fn rest_since<R: Wait>(&self, rt: &R, mark: u64) {
        self.lock.rest(rt, mark);
    }
}
