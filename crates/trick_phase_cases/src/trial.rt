//! A board with two benches.

ghost use Rattle.std.specs.Prelude.{◌≡◌, ◌≤◌, IfOk, None};
ghost use Rattle.trick_base.specs.Time.{tic_limit};
ghost use Rattle.trick_model.specs.Order.{jobs_at};
ghost use Rattle.trick_model.specs.PlanOf.{plan_of};
ghost use Rattle.trick_model.specs.Valid.{ids};
ghost use Rattle.trick_model.specs.declared.flags.Flags.{Flags};
ghost use Rattle.trick_phase_cases.specs.Trial.{IsTrial};

use crate::due::asked;
use std::alloc::{AllocError, Global};
use std::mem::swap;
use trick_eval::{Bench, eval};
use trick_lang::JobId;
use trick_memory::Memory;
use trick_model::{Accepted, Faults};
use trick_phase_board::{Board, Closed, Commit, Took};

/// A board and two benches.
#[derive(Drop)]
pub(crate) struct Trial {
    board: Board<Memory>,
    bench: Bench,
    other: Bench,
}

impl Trial {
    /// A closed board and two empty benches.
    pub(crate) fn new(alloc: Global, accepted: &Accepted) -> Result<Self, AllocError>
        ensures { IfOk result (λ t. IsTrial accepted.now.plan t.board t.bench t.other) }
    {
        let program = &accepted.plan().program;
        let bench = Bench::of(alloc, program, accepted.accesses())?;
        let other = Bench::of(alloc, program, accepted.accesses())?;
        let board = Board::new(alloc, accepted)?;
        Ok(Trial {
            board,
            bench,
            other,
        })
    }

    /// Whether a tic is open.
    pub(crate) fn is_open(&self) -> bool {
        self.board.is_open()
    }

    // Opens a tic with a memory of zeros and these due jobs.
    fn open_with(
        &mut self,
        alloc: Global,
        accepted: &Accepted,
        due: &[JobId],
        tic: u64,
    ) -> Result<(), AllocError>
        requires closed { self.old.board.opened ≡ None }
        requires right { IsTrial accepted.now.plan self.old.board self.old.bench self.old.other }
        requires due { (on : Flags) → ids due.now ≡ jobs_at (plan_of accepted.now.plan) on tic }
        ensures { IsTrial accepted.now.plan self.new.board self.new.bench self.new.other }
    {
        let plan = accepted.plan();
        let memory = Memory::new(alloc, plan)?;
        self.board.open(accepted, memory, &plan.jobs, due, tic);
        Ok(())
    }

    /// Opens a tic with a memory of zeros, where none is open.
    pub(crate) fn open(
        &mut self,
        alloc: Global,
        accepted: &Accepted,
        tic: u64,
    ) -> Result<(), AllocError>
        requires right { IsTrial accepted.now.plan self.old.board self.old.bench self.old.other }
        requires tic { tic ≤ tic_limit }
        ensures { IsTrial accepted.now.plan self.new.board self.new.bench self.new.other }
    {
        if self.board.is_open() {
            return Ok(());
        }
        let plan = accepted.plan();
        let queues = asked(alloc, plan, tic)?;
        let done = self.open_with(alloc, accepted, queues.due(), tic);
        drop(queues);
        done
    }

    /// Takes a job of a thread into the bench. `None` where no tic is open.
    pub(crate) fn take(&mut self, accepted: &Accepted, thread: u8) -> Option<Took>
        requires { IsTrial accepted.now.plan self.old.board self.old.bench self.old.other }
        ensures { IsTrial accepted.now.plan self.new.board self.new.bench self.new.other }
    {
        if !self.board.is_open() {
            return None;
        }
        let took = self.board.take(accepted, thread, &mut self.bench);
        Some(took)
    }

    /// Fills the bench by hand with a phase, a job and zeros, and tells whether there is the job.
    pub(crate) fn fill(
        &mut self,
        alloc: Global,
        accepted: &Accepted,
        phase: u64,
        job: u32,
    ) -> Result<bool, AllocError>
        requires { IsTrial accepted.now.plan self.old.board self.old.bench self.old.other }
        ensures { IsTrial accepted.now.plan self.new.board self.new.bench self.new.other }
    {
        let plan = accepted.plan();
        if job as usize >= plan.program.jobs.len() {
            return Ok(false);
        }
        let memory = Memory::new(alloc, plan)?;
        self.bench.fill(&plan.program, phase, JobId(job), &memory);
        drop(memory);
        Ok(true)
    }

    /// Evaluates the job in the bench and commits it. `None` where there is none or no tic is open.
    pub(crate) fn commit(&mut self, accepted: &Accepted) -> Option<Commit>
        requires { IsTrial accepted.now.plan self.old.board self.old.bench self.old.other }
        ensures { IsTrial accepted.now.plan self.new.board self.new.bench self.new.other }
    {
        let plan = accepted.plan();
        let job = match self.bench.job() {
            Some(job) => job.0 as usize,
            None => return None,
        };
        if !self.board.is_open() || job >= plan.program.jobs.len() {
            return None;
        }
        eval(&plan.program, &mut self.bench);
        let answer = self.board.commit(accepted, &mut self.bench);
        Some(answer)
    }

    /// Closes the tic. `None` where none is open.
    pub(crate) fn close(
        &mut self,
        accepted: &Accepted,
        faults: &mut Faults,
    ) -> Option<Closed<Memory>>
        requires { IsTrial accepted.now.plan self.old.board self.old.bench self.old.other }
        ensures { IsTrial accepted.now.plan self.new.board self.new.bench self.new.other }
    {
        if !self.board.is_open() {
            return None;
        }
        let closed = self.board.close(faults);
        Some(closed)
    }

    /// The phase of the bench.
    pub(crate) fn phase(&self) -> u64 {
        self.bench.phase()
    }

    /// The job of the bench.
    pub(crate) fn held(&self) -> Option<JobId> {
        self.bench.job()
    }

    /// Goes on with the other bench.
    pub(crate) fn swap(&mut self)
        ensures board { self.new.board ≡ self.old.board }
        ensures bench { self.new.bench ≡ self.old.other }
        ensures other { self.new.other ≡ self.old.bench }
    {
        swap(&mut self.bench, &mut self.other);
    }
}
