ghost use Rattle.std.specs.Prelude.{IfOk};
ghost use Rattle.trick_phase.specs.Single.{IsSingleOf};

use crate::steps::run_job;
use std::alloc::{AllocError, Global};
use trick_eval::Bench;
use trick_lang::laws::{frame_law, write_law};
use trick_lang::{Cells, JobId};
use trick_model::laws::key_order_is_one;
use trick_model::{Accepted, Faults, Flags};
use trick_phase_board::{Board, Closed};
use trick_phase_jobs::Phases;
use trick_race::laws::due_jobs_are_settled;

/// The jobs of a tic on the caller's thread, each taken from a board and at once committed.
#[derive(Drop)]
pub struct Single<M: Cells> {
    board: Board<M>,
    bench: Bench,
}

impl<M: Cells> Single<M> {
    /// For a plan. This call alone takes memory.
    pub fn new(alloc: Global, accepted: &Accepted) -> Result<Self, AllocError>
        ensures { IfOk result (λ single. IsSingleOf accepted.now.plan single.board single.bench.parts) }
    {
        let bench = Bench::of(alloc, &accepted.plan().program, accepted.accesses())?;
        let board = Board::new(alloc, accepted)?;
        Ok(Single { board, bench })
    }
}

impl<M: Cells> Phases<M> for Single<M> {
    ghost use Rattle.trick_phase.specs.Single.{IsSingleOf};

    ghost is_for = { λ single plan. IsSingleOf plan single.board single.bench.parts };

    fn tic(
        &mut self,
        accepted: &Accepted,
        memory: M,
        on: &Flags,
        due: &[JobId],
        tic: u64,
        faults: &mut Faults,
    ) -> M {
        key_order_is_one();
        due_jobs_are_settled();
        frame_law();
        write_law();
        self.board.open(accepted, memory, on, due, tic);
        for job in due {
            // It can be run, since it is the next of the due jobs.
            run_job(&mut self.board, &mut self.bench, accepted, *job);
        }
        match self.board.close(faults) {
            Closed::Memory(memory) => memory,
            Closed::Left { .. } => unreachable!(),
        }
    }
}
