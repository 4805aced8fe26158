//! What the caller does itself.
ghost use Rattle.std.specs.Arc.{arc_value};
ghost use Rattle.std.specs.Prelude.{◌≡◌, ◌+◌, ◌≤◌, ◌∷◌, [], IfOk, Some, vec_capacity, vec_len};
ghost use Rattle.trick_eval.specs.Bench.{IsFor};

use crate::held::Held;
use crate::step::{Stepped, step};
use std::alloc::{AllocError, Global};
use std::sync::Wait;
use trick_eval::Bench;
use trick_hall::Hand;
use trick_lang::Cells;
use trick_model::{Accepted, Planned};
use trick_outside::NoGate;

/// The caller's share of the work: the threads whose jobs the caller does, with a hand of the hall and a bench.
#[derive(Drop)]
pub struct Share<M: Cells + Drop, P: Planned> {
    pub(crate) hand: Hand<M, P>,
    pub(crate) bench: Bench,
    pub(crate) threads: Vec<u8>,
}

// Takes one step for each of these threads. Whether a job was done.
fn step_each<M: Cells + Drop, P: Planned, R: Wait>(
    rt: &R,
    hand: &mut Hand<M, P>,
    bench: &mut Bench,
    threads: &[u8],
    accepted: &Accepted,
) -> bool
    requires plan { P.plan ≡ Some accepted.now.plan }
    requires bench { IsFor accepted.now.plan.program bench.old.parts }
    ensures lock { hand.new.lock ≡ hand.old.lock }
    ensures bench { bench.new.parts ≡ bench.old.parts }
{
    let mut worked = false;
    for thread in threads {
        if let Stepped::Worked = step(rt, hand, bench, accepted, &NoGate, *thread) {
            worked = true;
        }
    }
    worked
}

impl<M: Cells + Drop, P: Planned> Share<M, P> {
    /// The share of thread 0, with room for so many more. This call alone takes memory.
    pub(crate) fn new(
        alloc: Global,
        held: &Held<P>,
        hand: Hand<M, P>,
        more: usize,
    ) -> Result<Self, AllocError>
        requires few { more ≤ 15 }
        ensures hand { IfOk result (λ share. share.hand ≡ hand) }
        ensures bench { IfOk result (λ share. IsFor (arc_value held.now.accepted).plan.program share.bench.parts) }
        ensures threads { IfOk result (λ share. share.threads.items ≡ 0 ∷ []) }
        ensures room { IfOk result (λ share. vec_len share.threads + more ≤ vec_capacity share.threads) }
    {
        let accepted = &*held.accepted;
        let bench = Bench::of(alloc, &accepted.plan().program, accepted.accesses())?;
        let mut threads = Vec::with_capacity(alloc, more + 1)?;
        threads.push_reserved(0);
        Ok(Share {
            hand,
            bench,
            threads,
        })
    }

    /// The hand, once the work is done.
    pub(crate) fn into_hand(self) -> Hand<M, P>
        ensures { result ≡ self.hand }
    {
        let Share { hand, .. } = self;
        hand
    }

    /// Takes one step for each thread of the share. Whether a job was done.
    pub(crate) fn work<R: Wait>(&mut self, rt: &R, accepted: &Accepted) -> bool
        requires plan { P.plan ≡ Some accepted.now.plan }
        requires bench { IsFor accepted.now.plan.program self.old.bench.parts }
        ensures lock { self.new.hand.lock ≡ self.old.hand.lock }
        ensures bench { self.new.bench.parts ≡ self.old.bench.parts }
        ensures threads { self.new.threads ≡ self.old.threads }
    {
        step_each(
            rt,
            &mut self.hand,
            &mut self.bench,
            self.threads.as_slice(),
            accepted,
        )
    }
}
