//! How a crew is made, and how it ends.
ghost use Rattle.std.specs.Arc.{arc_value};
ghost use Rattle.std.specs.Prelude.{◌≡◌, ◌+◌, ◌++◌, ◌∷◌, ◌≤◌, All, IfErr, IfOk, OnOk, length, map, reverse, true, vec_len};
ghost use Rattle.trick_crew_team.specs.Children.{children};
ghost use Rattle.trick_crew_team.specs.Hands.{IsTakenIn};
ghost use Rattle.trick_crew_team.specs.Members.{AreFor, IsRefusedAny, refused};
ghost use Rattle.trick_crew_team.specs.Working.{HasWorked};
ghost use Rattle.trick_hall_kept.specs.Histories.{has_shut};
ghost use Rattle.trick_outside.specs.Causes.{HasCause};
ghost use Rattle.trick_turn.specs.Passes.{own, seen};
ghost use mathlib.Core.List.{IsPrefix};

use crate::children::children;
use crate::held::Held;
use crate::members::{add_refused, start_each, take_each_in};
use crate::share::Share;
use crate::team::Team;
use crate::worker::{Means, Worker};
use std::alloc::{AllocError, Global};
use std::sync::{Arc, Wait};
use std::thread::Threads;
use trick_hall::{Chief, Hall, Hand};
use trick_lang::Cells;
use trick_model::Planned;
use trick_outside::{Gate, Spawner};

/// Who does the work of a run in threads. Each thread of a crew ends in [`Crew::finish`].
#[derive(Drop)]
pub struct Crew<
    M: Cells + Drop + Send + 'static,
    P: Planned + Send + 'static,
    G: Gate + Send + Sync + Drop + 'static,
    R: Threads + Wait + Copy + Send + Drop + 'static,
> {
    /// The scheduled threads.
    pub phases: Team<M, P, G, R>,
}

// A worker for each of these threads, with one of the hands.
fn workers_for<M: Cells + Drop, P: Planned, G: Gate + Drop, R: Wait + Copy + Drop>(
    means: &Means<'_, P, G, R>,
    threads: &[u8],
    hands: &mut Vec<Hand<M, P>>,
) -> Result<Vec<Worker<M, P, G, R>>, AllocError>
    requires enough { length threads.now ≤ vec_len hands.old }
    ensures threads { IfOk result (λ workers. map (λ w. w.thread) workers.items ≡ threads.now) }
    ensures many { IfOk result (λ workers. vec_len workers ≡ length threads.now) }
    ensures left { OnOk result (vec_len hands.new + length threads.now ≡ vec_len hands.old) }
    ensures hands { IfOk result (λ workers. hands.new.items ++ reverse (map (λ w. w.hand) workers.items)
        ≡ hands.old.items) }
{
    let mut workers = Vec::with_capacity(means.alloc, threads.len())?;
    for thread in threads {
        let hand = hands.take_last();
        workers.push(Worker::new(means, hand, *thread)?)?;
    }
    Ok(workers)
}

impl<
    M: Cells + Drop + Send + 'static,
    P: Planned + Send + 'static,
    G: Gate + Send + Sync + Drop + 'static,
    R: Threads + Wait + Copy + Send + Drop + 'static,
> Crew<M, P, G, R> {
    /// A crew of a plan: a worker for each scheduled child thread that has a job, started as far as the spawner admits
    /// it; the caller does the jobs of thread 0 and of the threads whose worker was refused. All memory that the crew
    /// ever needs is taken before the first start, so no thread is left where there is none.
    pub fn new<S: Spawner>(
        rt: R,
        alloc: Global,
        held: Held<P>,
        spawner: &mut S,
        gate: Arc<G, Global>,
    ) -> Result<Self, AllocError>
        ensures plan { IfOk result (λ crew. arc_value crew.phases.held.accepted ≡ arc_value held.accepted) }
        ensures threads { IfOk result (λ crew. AreFor HasWorked (λ w. w.thread)
            (children (arc_value held.accepted).plan) (reverse crew.phases.members.items)) }
        ensures share { IfOk result (λ crew. crew.phases.share.threads.items
            ≡ 0 ∷ refused (λ w. w.thread) crew.phases.members.items) }
        ensures cause { IfOk result (λ crew. HasCause (S.failures spawner.old) (S.failures spawner.new)
            (IsRefusedAny crew.phases.members.items)) }
        ensures none { IfErr result (λ _. spawner.new ≡ spawner.old) }
    {
        let threads = children(alloc, held.accepted.plan())?;
        let (chief, mut hands) = Hall::new::<M, P>(
            alloc,
            &held.accepted,
            threads.len() as u32 + 1,
        )?;
        let means = Means {
            rt,
            alloc,
            held: &held,
            gate: &gate,
        };
        let workers = workers_for(&means, threads.as_slice(), &mut hands)?;
        let mut share = Share::new(alloc, &held, hands.take_last(), threads.len())?;
        let mut members = Vec::with_capacity(alloc, threads.len())?;
        start_each(&rt, alloc, spawner, workers, &mut members);
        add_refused(members.as_slice(), &mut share.threads);
        let phases = Team {
            rt,
            held,
            chief,
            share,
            members,
        };
        Ok(Crew { phases })
    }

    /// Ends the crew, also after an error of a run: the hall is shut, each thread is waited for, and the chief takes
    /// all hands in.
    pub fn finish(self) -> Chief<M, P>
        ensures shut { has_shut (own result.pass) ≡ true }
        ensures share { IsPrefix (seen self.phases.share.hand.pass) (seen result.pass) }
        ensures members { All (IsTakenIn result.pass) self.phases.members.items }
    {
        let Crew { phases } = self;
        let Team {
            rt,
            mut chief,
            share,
            members,
            ..
        } = phases;
        chief.shut(&rt);
        chief.take_in(share.into_hand());
        take_each_in(&rt, &mut chief, members);
        chief
    }
}
