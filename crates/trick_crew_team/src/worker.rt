//! A worker, which does the jobs of one thread until the hall is shut.
ghost use Rattle.std.specs.Arc.{arc_value};
ghost use Rattle.std.specs.Prelude.{◌≡◌, IfOk, Some, true};
ghost use Rattle.trick_eval.specs.Bench.{IsFor};
ghost use Rattle.trick_hall_kept.specs.Histories.{has_shut};
ghost use Rattle.trick_turn.specs.Passes.{seen};

use crate::held::Held;
use crate::step::{Stepped, step};
use std::alloc::{AllocError, Global};
use std::sync::{Arc, Wait};
use trick_eval::Bench;
use trick_hall::Hand;
use trick_lang::Cells;
use trick_model::{Accepted, Planned};
use trick_outside::{Gate, Work};

/// The worker of one thread, with its hand of the hall and a bench of its own. It is moved into the thread that runs
/// it.
#[derive(Drop)]
pub struct Worker<M: Cells + Drop, P: Planned, G: Gate + Drop, R: Wait + Drop> {
    rt: R,
    held: Held<P>,
    pub(crate) hand: Hand<M, P>,
    bench: Bench,
    gate: Arc<G, Global>,
    pub(crate) thread: u8,
    pub ghost fits: { IsFor (arc_value held.accepted).plan.program bench.parts },
}

/// What all workers of a crew are made with.
#[derive(Drop)]
pub(crate) struct Means<'a, P: Planned, G: Gate + Drop, R: Wait + Copy + Drop> {
    pub(crate) rt: R,
    pub(crate) alloc: Global,
    pub(crate) held: &'a Held<P>,
    pub(crate) gate: &'a Arc<G, Global>,
}

impl<M: Cells + Drop, P: Planned, G: Gate + Drop, R: Wait + Copy + Drop> Worker<M, P, G, R> {
    /// A worker of a thread. This call alone takes memory.
    pub(crate) fn new(
        means: &Means<'_, P, G, R>,
        hand: Hand<M, P>,
        thread: u8,
    ) -> Result<Self, AllocError>
        ensures hand { IfOk result (λ worker. worker.hand ≡ hand) }
        ensures thread { IfOk result (λ worker. worker.thread ≡ thread) }
    {
        let held = Held::try_clone(means.held)?;
        let gate = Arc::try_clone(means.gate)?;
        let accepted = &*held.accepted;
        let bench = Bench::of(means.alloc, &accepted.plan().program, accepted.accesses())?;
        Ok(Worker {
            rt: means.rt,
            held,
            hand,
            bench,
            gate,
            thread,
        })
    }
}

// Does the jobs of a thread until the hall is shut. It sleeps where there is nothing to do.
fn work<M: Cells + Drop, P: Planned, G: Gate, R: Wait>(
    rt: &R,
    hand: &mut Hand<M, P>,
    bench: &mut Bench,
    accepted: &Accepted,
    gate: &G,
    thread: u8,
)
    requires plan { P.plan ≡ Some accepted.now.plan }
    requires bench { IsFor accepted.now.plan.program bench.old.parts }
    ensures lock { hand.new.lock ≡ hand.old.lock }
    ensures shut { has_shut (seen hand.new.pass) ≡ true }
{
    for _ in rt.forever() {
        let mark = hand.mark();
        let opening = hand.mark_opening();
        match step(rt, hand, bench, accepted, gate, thread) {
            Stepped::Ends => return,
            Stepped::Waits => hand.rest_since(rt, mark),
            Stepped::Idles => hand.rest_until_opening(rt, opening),
            Stepped::Worked => {}
        }
    }
}

impl<
    M: Cells + Drop + Send,
    P: Planned + Send,
    G: Gate + Send + Sync + Drop,
    R: Wait + Send + Drop,
> Work for Worker<M, P, G, R> {
    ghost use Rattle.trick_crew_team.specs.Working.{HasWorked};

    type Out = Hand<M, P>;

    ghost promises = { HasWorked };

    fn run(self) -> Hand<M, P> {
        let Worker {
            rt,
            held,
            mut hand,
            mut bench,
            gate,
            thread,
        } = self;
        work(&rt, &mut hand, &mut bench, &*held.accepted, &*gate, thread);
        hand
    }
}
