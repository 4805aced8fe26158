//! Who runs the due jobs of a tic: the caller, and whatever workers there are.
ghost use Rattle.std.specs.Arc.{arc_value};
ghost use Rattle.std.specs.Prelude.{◌≡◌, IsSome, None, Some, false, is_some};
ghost use Rattle.trick_crew_team.specs.Hands.{AreOfHall};
ghost use Rattle.trick_eval.specs.Bench.{IsFor};
ghost use Rattle.trick_hall_kept.specs.Answers.{IsSerial};
ghost use Rattle.trick_hall_kept.specs.Histories.{Opening, has_shut};
ghost use Rattle.trick_hall_kept.specs.Openings.{opened_at};
ghost use Rattle.trick_lang.specs.Effect.{scalars_of};
ghost use Rattle.trick_turn.specs.Passes.{IsPassOf, own};

use crate::held::Held;
use crate::share::Share;
use crate::worker::Worker;
use std::sync::Wait;
use std::thread::Threads;
use trick_hall::Chief;
use trick_lang::{Cells, JobId};
use trick_model::{Accepted, Faults, Flags, Planned};
use trick_outside::{Begun, Gate};
use trick_phase_board::Closed;
use trick_phase_jobs::Phases;

/// The scheduled threads of a crew: the chief of their hall, the caller's share, and the workers. Between two tics no
/// tic is open, and the hall is not shut. All hands are of that hall.
#[derive(Drop)]
pub struct Team<
    M: Cells + Drop + Send + 'static,
    P: Planned + Send + 'static,
    G: Gate + Send + Sync + Drop + 'static,
    R: Threads + Wait + Copy + Send + Drop + 'static,
> {
    pub(crate) rt: R,
    pub held: Held<P>,
    pub(crate) chief: Chief<M, P>,
    pub(crate) share: Share<M, P>,
    // The worker of each child thread that is to have one: it was started or refused.
    pub(crate) members: Vec<Begun<Worker<M, P, G, R>>>,
    pub ghost closed: { is_some (opened_at (own chief.pass)) ≡ false },
    pub ghost not_shut: { has_shut (own chief.pass) ≡ false },
    pub ghost fits: { IsFor (arc_value held.accepted).plan.program share.bench.parts },
    pub ghost share_of_hall: { IsPassOf (arc_value share.hand.lock) chief.pass },
    pub ghost members_of_hall: { ∥ AreOfHall chief.pass members.items ∥₁ },
}

// Works until all due jobs of the tic are committed, and closes it. It sleeps where there is nothing to do.
fn close<M: Cells + Drop, P: Planned, R: Wait>(
    rt: &R,
    chief: &mut Chief<M, P>,
    share: &mut Share<M, P>,
    accepted: &Accepted,
    faults: &mut Faults,
) -> M
    requires plan { P.plan ≡ Some accepted.now.plan }
    requires bench { IsFor accepted.now.plan.program share.old.bench.parts }
    requires opened { IsSome (opened_at (own chief.old.pass)) }
    ensures serial { (x : Opening) → opened_at (own chief.old.pass) ≡ Some x
        → IsSerial accepted.now.plan x (M.numbers result) faults.old faults.new }
    ensures scalars { M.scalars result ≡ scalars_of accepted.now.plan.program.cells }
    ensures closed { opened_at (own chief.new.pass) ≡ None }
    ensures shut { has_shut (own chief.new.pass) ≡ has_shut (own chief.old.pass) }
    ensures lock { chief.new.lock ≡ chief.old.lock }
    ensures hand { share.new.hand.lock ≡ share.old.hand.lock }
    ensures bench { share.new.bench.parts ≡ share.old.bench.parts }
{
    for _ in rt.forever() {
        let mark = chief.mark();
        if share.work(rt, accepted) {
            continue;
        }
        match chief.close(rt, accepted, faults) {
            Closed::Memory(memory) => return memory,
            Closed::Left { .. } => chief.rest_since(rt, mark),
        }
    }
    unreachable!()
}

impl<
    M: Cells + Drop + Send + 'static,
    P: Planned + Send + 'static,
    G: Gate + Send + Sync + Drop + 'static,
    R: Threads + Wait + Copy + Send + Drop + 'static,
> Phases<M> for Team<M, P, G, R> {
    ghost use Rattle.std.specs.Arc.{arc_value};
    ghost use Rattle.std.specs.Prelude.{◌≡◌};

    ghost is_for = { λ team plan. (arc_value team.held.accepted).plan ≡ plan };

    fn tic(
        &mut self,
        accepted: &Accepted,
        memory: M,
        on: &Flags,
        due: &[JobId],
        tic: u64,
        faults: &mut Faults,
    ) -> M {
        self.chief.open(&self.rt, accepted, memory, on, due, tic);
        close(&self.rt, &mut self.chief, &mut self.share, accepted, faults)
    }
}
