//! One step of whoever does the jobs of a thread.
ghost use Rattle.std.specs.Prelude.{◌≡◌, Some};
ghost use Rattle.trick_crew_team.specs.Stepping.{StepsAt};
ghost use Rattle.trick_eval.specs.Bench.{IsFor};

use std::sync::Wait;
use trick_eval::{Bench, eval};
use trick_hall::{Hand, HandTook};
use trick_lang::Cells;
use trick_model::{Accepted, Planned};
use trick_outside::Gate;

/// What a step came to.
#[derive(Clone, Copy, Debug, PartialEq, Eq)]
pub enum Stepped {
    /// A job was taken, evaluated and committed.
    Worked,
    /// The thread's next due job waits for a job that is not committed.
    Waits,
    /// The thread has nothing to do before a tic is opened.
    Idles,
    /// The hall was shut.
    Ends,
}

/// Takes the thread's next due job where it can be taken, evaluates it and commits it. The turn is free from the take
/// to the commit, and between them the gate is passed.
pub(crate) fn step<M: Cells + Drop, P: Planned, G: Gate, R: Wait>(
    rt: &R,
    hand: &mut Hand<M, P>,
    bench: &mut Bench,
    accepted: &Accepted,
    gate: &G,
    thread: u8,
) -> Stepped
    requires plan { P.plan ≡ Some accepted.now.plan }
    requires bench { IsFor accepted.now.plan.program bench.old.parts }
    ensures lock { hand.new.lock ≡ hand.old.lock }
    ensures answer { StepsAt accepted.now.plan thread hand.old.pass hand.new.pass bench.old bench.new result }
    ensures bench { bench.new.parts ≡ bench.old.parts }
{
    match hand.take(rt, accepted, thread, bench) {
        HandTook::Took => {
            let job = bench.job().unwrap();
            eval(&accepted.plan().program, bench);
            gate.between(thread, hand.tic, job.0);
            hand.commit(rt, accepted, bench);
            Stepped::Worked
        }
        HandTook::NotYet { .. } => Stepped::Waits,
        HandTook::ThreadDone => Stepped::Idles,
        HandTook::Closed { .. } => Stepped::Idles,
        HandTook::Busy { .. } => Stepped::Waits,
        HandTook::Shut => Stepped::Ends,
    }
}
