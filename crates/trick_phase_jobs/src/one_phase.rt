ghost use Rattle.std.specs.Prelude.{IfOk};
ghost use Rattle.trick_eval.specs.Bench.{IsFor};

use crate::{Phases, Setting, run_jobs};
use std::alloc::{AllocError, Global};
use std::marker::Model;
use trick_eval::Bench;
use trick_lang::{Cells, JobId};
use trick_model::{Accepted, Faults, Flags};

/// The jobs of a tic on the caller's thread, one after another on one bench. This is the plain form of
/// [`Phases`](crate::Phases), a yardstick that cases call and no run.
#[derive(Drop)]
pub struct OnePhase {
    bench: Bench,
}

impl Model for OnePhase {
    ghost use Rattle.trick_eval.specs.Bench.{Parts};

    ghost Value = { Parts };

    ghost view = { λ one. one.bench.parts };
}

impl OnePhase {
    /// For a plan. This call alone takes memory.
    pub fn new(alloc: Global, accepted: &Accepted) -> Result<Self, AllocError>
        ensures { IfOk result (λ one. IsFor accepted.now.plan.program one) }
    {
        let bench = Bench::of(alloc, &accepted.plan().program, accepted.accesses())?;
        Ok(OnePhase { bench })
    }
}

impl<M: Cells> Phases<M> for OnePhase {
    ghost use Rattle.trick_eval.specs.Bench.{IsFor};

    ghost is_for = { λ one plan. IsFor plan.program one };

    fn tic(
        &mut self,
        accepted: &Accepted,
        memory: M,
        on: &Flags,
        due: &[JobId],
        tic: u64,
        faults: &mut Faults,
    ) -> M {
        let mut memory = memory;
        let setting = Setting {
            plan: accepted.plan(),
            on,
            tic,
        };
        run_jobs(setting, due, &mut self.bench, &mut memory, faults);
        memory
    }
}
