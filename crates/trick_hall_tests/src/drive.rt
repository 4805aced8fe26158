//! What each of three threads does: it tries until it finds the turn held, and then takes and commits its job.
ghost use Rattle.std.specs.Prelude.{◌≡◌, Some};
ghost use Rattle.trick_eval.specs.Bench.{IsFilled, IsFor as IsBenchFor};

use std::alloc::Global;
use std::process::Abort;
use std::sync::Wait;
use std::thread::{Threads, join, yield_now};
use trick_eval::{Bench, eval};
use trick_hall::{Hand, HandCommit, HandTook};
use trick_memory::Memory;
use trick_model::{Accepted, Planned};

/// A thread that no job is on.
const IDLE_THREAD: u8 = 15;

/// How often a thread tries before it gives up finding the turn held. It takes a second or two.
const TRIES: u32 = 5_000_000;

/// A hand with a bench of its own.
#[derive(Drop)]
pub(crate) struct Worker<P: Planned> {
    hand: Hand<Memory, P>,
    bench: Bench,
}

impl<P: Planned> Worker<P> {
    /// A worker with an empty bench.
    pub(crate) fn new(
        rt: &impl Abort,
        alloc: Global,
        accepted: &Accepted,
        hand: Hand<Memory, P>,
    ) -> Worker<P>
        ensures { IsBenchFor accepted.now.plan.program result.bench.parts }
    {
        let bench = Bench::of(alloc, &accepted.plan().program, accepted.accesses()).expect(
            rt, "memory",
        );
        Worker { hand, bench }
    }
}

/// What came of the jobs of some threads.
#[derive(Clone, Copy, Drop)]
pub(crate) struct Done {
    /// Each was committed.
    pub(crate) committed: bool,
    /// Some thread found the turn held.
    pub(crate) was_busy: bool,
}

// Tries until the turn is held.
fn find_busy<P: Planned>(worker: &mut Worker<P>, accepted: &Accepted) -> bool
    requires plan { P.plan ≡ Some accepted.now.plan }
    requires bench { IsBenchFor accepted.now.plan.program worker.old.bench.parts }
    ensures { worker.new.bench.parts ≡ worker.old.bench.parts }
{
    for _ in 0..TRIES {
        if let HandTook::Busy { .. } = worker
            .hand
            .try_take(accepted, IDLE_THREAD, &mut worker.bench)
        {
            return true;
        }
    }
    false
}

// Tries until the next job of a thread is in the bench.
fn take<P: Planned, R: Wait>(rt: &R, worker: &mut Worker<P>, accepted: &Accepted, thread: u8)
    requires plan { P.plan ≡ Some accepted.now.plan }
    requires bench { IsBenchFor accepted.now.plan.program worker.old.bench.parts }
    ensures bench { worker.new.bench.parts ≡ worker.old.bench.parts }
    ensures filled { IsFilled accepted.now.plan.program worker.new.bench }
{
    for _ in rt.forever() {
        match worker.hand.try_take(accepted, thread, &mut worker.bench) {
            HandTook::Took => return,
            _ => yield_now(),
        }
    }
    unreachable!()
}

// Evaluates the job in the bench and tries until it is committed. A refusal ends it too.
fn commit<P: Planned, R: Wait>(rt: &R, worker: &mut Worker<P>, accepted: &Accepted) -> bool
    requires plan { P.plan ≡ Some accepted.now.plan }
    requires bench { IsBenchFor accepted.now.plan.program worker.old.bench.parts }
    requires filled { IsFilled accepted.now.plan.program worker.old.bench }
{
    eval(&accepted.plan().program, &mut worker.bench);
    for _ in rt.forever() {
        match worker.hand.try_commit(accepted, &mut worker.bench) {
            HandCommit::Busy { .. } => yield_now(),
            answer => return matches!(answer, HandCommit::Committed),
        }
    }
    unreachable!()
}

// Does the one job of a thread.
fn do_job<P: Planned, R: Wait>(
    rt: &R,
    mut worker: Worker<P>,
    accepted: &Accepted,
    thread: u8,
) -> Done
    requires plan { P.plan ≡ Some accepted.now.plan }
    requires bench { IsBenchFor accepted.now.plan.program worker.bench.parts }
{
    let was_busy = find_busy(&mut worker, accepted);
    take(rt, &mut worker, accepted, thread);
    let committed = commit(rt, &mut worker, accepted);
    Done {
        committed,
        was_busy,
    }
}

// What came of both.
fn both(one: Done, other: Done) -> Done {
    Done {
        committed: one.committed && other.committed,
        was_busy: one.was_busy || other.was_busy,
    }
}

/// Three threads do a job each.
pub(crate) fn drive<P: Planned + Send, R: Threads + Wait + Sync>(
    rt: &R,
    accepted: &Accepted,
    workers: (Worker<P>, Worker<P>, Worker<P>),
) -> Done
    requires plan { P.plan ≡ Some accepted.now.plan }
    requires first { IsBenchFor accepted.now.plan.program workers.0.bench.parts }
    requires second { IsBenchFor accepted.now.plan.program workers.1.bench.parts }
    requires third { IsBenchFor accepted.now.plan.program workers.2.bench.parts }
{
    let (first, second, third) = workers;
    let (one, others) = join(
        rt,
        || do_job(rt, first, accepted, 1),
        || -> Done
            requires plan { P.plan ≡ Some accepted.now.plan }
            requires second { IsBenchFor accepted.now.plan.program second.bench.parts }
            requires third { IsBenchFor accepted.now.plan.program third.bench.parts }
        { do_two(rt, second, third, accepted) },
    );
    both(one, others)
}

// Two of the three threads.
fn do_two<P: Planned + Send, R: Threads + Wait + Sync>(
    rt: &R,
    second: Worker<P>,
    third: Worker<P>,
    accepted: &Accepted,
) -> Done
    requires plan { P.plan ≡ Some accepted.now.plan }
    requires second { IsBenchFor accepted.now.plan.program second.bench.parts }
    requires third { IsBenchFor accepted.now.plan.program third.bench.parts }
{
    let (two, three) = join(
        rt,
        || do_job(rt, second, accepted, 2),
        || do_job(rt, third, accepted, 3),
    );
    both(two, three)
}
