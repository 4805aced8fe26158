//! How a whole crew is made, and how it ends.
ghost use Rattle.std.specs.Arc.{arc_value};
ghost use Rattle.std.specs.Prelude.{◌≡◌, ◌∷◌, ℕ, All, IfErr, IfOk, None, Some, reverse, true};
ghost use Rattle.trick_crew_team.specs.Children.{children};
ghost use Rattle.trick_crew_team.specs.Hands.{IsTakenIn};
ghost use Rattle.trick_crew_team.specs.Members.{AreFor, IsRefusedAny, refused};
ghost use Rattle.trick_crew_team.specs.Working.{HasWorked};
ghost use Rattle.trick_crew.specs.Clerks.{AreStaffedBy, StayedAmong};
ghost use Rattle.trick_crew.specs.Ends.{HaveEnded};
ghost use Rattle.trick_crew.specs.InHand.{in_hand, plan_for};
ghost use Rattle.trick_post.specs.Clerks.{clerked};
ghost use Rattle.trick_hall_kept.specs.Histories.{has_shut};
ghost use Rattle.trick_outside.specs.Causes.{HasCause};
ghost use Rattle.trick_turn.specs.Passes.{own, seen};
ghost use mathlib.Core.List.{IsPrefix};

use crate::clerks::Clerks;
use crate::listing::Listing;
use std::alloc::{AllocError, Global};
use std::sync::{Arc, Wait};
use std::thread::Threads;
use trick_crew_team::{Crew, Team};
use trick_hall::Chief;
use trick_lang::Cells;
use trick_model::{Accepted, Planned};
use trick_outside::{Gate, Spawner};
use trick_post::ShutPost;

/// Who does all the work of a run in threads. Each thread of it ends in [`WholeCrew::finish`].
#[derive(Drop)]
pub struct WholeCrew<
    M: Cells + Drop + Send + 'static,
    P: Planned + Send + 'static,
    G: Gate + Send + Sync + Drop + 'static,
    R: Threads + Wait + Copy + Send + Drop + 'static,
> {
    /// The scheduled threads.
    pub phases: Team<M, P, G, R>,
    /// The must-finish and asynchronous threads.
    pub posts: Clerks<P, G, R>,
}

/// What is left of a crew that has ended: its hall, by the chief, and the post of its clerks, if it had any. Both were
/// shut.
#[derive(Drop)]
pub struct CrewEnd<M: Cells + Drop, P: Planned> {
    pub hall: Chief<M, P>,
    pub post: Option<ShutPost<P>>,
}

impl<
    M: Cells + Drop + Send + 'static,
    P: Planned + Send + 'static,
    G: Gate + Send + Sync + Drop + 'static,
    R: Threads + Wait + Copy + Send + Drop + 'static,
> WholeCrew<M, P, G, R> {
    /// The whole crew of a plan, the one that `P` tells: a worker for each scheduled child thread that has a job, and a
    /// clerk for each must-finish and asynchronous thread, started as far as the spawner admits it; the caller does
    /// the work of those that were refused. All memory that the crew ever needs is taken before the first start, so no
    /// thread is left where there is none.
    pub fn new<S: Spawner>(
        rt: R,
        alloc: Global,
        accepted: &Arc<Accepted, Global>,
        spawner: &mut S,
        gate: Arc<G, Global>,
    ) -> Result<Self, AllocError>
        requires plan { P.plan ≡ Some (arc_value accepted.now).plan }
        ensures phases { IfOk result (λ crew. arc_value crew.phases.held.accepted ≡ arc_value accepted.now) }
        ensures posts { IfOk result (λ crew. plan_for crew.posts ≡ (arc_value accepted.now).plan) }
        ensures free { IfOk result (λ crew. (n : ℕ) → in_hand crew.posts n ≡ None) }
        ensures threads { IfOk result (λ crew. AreFor HasWorked (λ w. w.thread)
            (children (arc_value accepted.now).plan) (reverse crew.phases.members.items)) }
        ensures share { IfOk result (λ crew. crew.phases.share.threads.items
            ≡ 0 ∷ refused (λ w. w.thread) crew.phases.members.items) }
        ensures clerks { IfOk result (λ crew. AreStaffedBy (clerked (arc_value accepted.now).plan) crew.posts) }
        ensures cause { IfOk result (λ crew. HasCause (S.failures spawner.old) (S.failures spawner.new)
            (IsRefusedAny crew.phases.members.items)) }
        ensures stay { IfOk result (λ crew. HasCause (S.failures spawner.old) (S.failures spawner.new)
            (StayedAmong crew.posts)) }
        ensures none { IfErr result (λ _. spawner.new ≡ spawner.old) }
    {
        let held = trick_post::Held::<P>::new(Arc::try_clone(accepted)?);
        let listing = Listing::new(rt, alloc, held, &gate)?;
        let held = trick_crew_team::Held::<P>::new(Arc::try_clone(accepted)?);
        let Crew { phases } = Crew::new(rt, alloc, held, spawner, gate)?;
        let posts = listing.start(alloc, spawner);
        Ok(WholeCrew { phases, posts })
    }

    /// Ends the crew, also after an error of a run: the post of the clerks and the hall of the team are shut, each
    /// thread is waited for, and all clerks and hands are taken in.
    pub fn finish(self) -> CrewEnd<M, P>
        ensures shut { has_shut (own result.hall.pass) ≡ true }
        ensures share { IsPrefix (seen self.phases.share.hand.pass) (seen result.hall.pass) }
        ensures members { All (IsTakenIn result.hall.pass) self.phases.members.items }
        ensures clerks { HaveEnded self.posts result.post }
    {
        let WholeCrew { phases, posts } = self;
        let post = posts.close();
        let hall = Crew { phases }.finish();
        CrewEnd { hall, post }
    }
}
