//! Where a job is evaluated.

ghost use Rattle.std.specs.List.{slice_index_or};
ghost use Rattle.std.specs.Prelude.{◌≡◌, ◌<◌, ◌≤◌, IfOk, MatchOption, None, Some, [], false, length, pos, replicate, true, ℕ};
ghost use Rattle.trick_access.specs.Accesses.{AreAccessesOf};
ghost use Rattle.trick_access.specs.Ranges.{AreCellsOf};
ghost use Rattle.trick_eval.specs.Bench.{IsEvaluated, IsFilled, IsFirstDifference, IsFor, fault_of, the_job};
ghost use Rattle.trick_lang.specs.Effect.{after_effect, effect, reads, scalars_of};
ghost use Rattle.trick_lang.specs.Laws.{AgreeOn};
ghost use Rattle.trick_lang.specs.Valid.{deep_at};
ghost use Rattle.trick_lang.specs.declared.job.JobId.{JobId};

use crate::machine::run;
use crate::stack::Stack;
use crate::store::{copy, difference, overwrite};
use crate::working::Working;
use std::alloc::{AllocError, Global};
use std::marker::Model;
use trick_access::{Access, base, body, ranges_of, reads_in, reads_of_jobs};
use trick_base::Items;
use trick_lang::laws::{length_law, range_law};
use trick_lang::{Block, Cell, CellRange, Cells, JobFault, JobId, Program, StatementFault};

/// Where a job is evaluated: all buffers of one worker, which are made once. It is empty; or filled
/// with the numbers that a job reads; or done, and then it holds what the job does to them.
#[derive(Drop)]
pub struct Bench {
    phase: u64,
    job: Option<JobId>,
    outcome: Option<Result<(), StatementFault>>,
    inputs: Vec<i64>,
    working: Working,
    stack: Stack,
    // The cells that each job may read.
    reads: Items<Items<CellRange>>,
}

impl Model for Bench {
    ghost use Rattle.std.specs.Prelude.{length};
    ghost use Rattle.trick_eval.specs.Bench.{BenchView, IsClean, IsEmpty, outcome_of};

    ghost Value = { BenchView };

    ghost view = { λ b. record {
      phase = b.phase;
      job = b.job;
      inputs = b.inputs.items;
      outcome = outcome_of b.outcome b.working.stored;
      parts = record {
        cells = length b.inputs.items;
        slots = length b.working.locals;
        room = b.stack.room;
        reads = b.reads;
      };
    } };

    ghost invariant = { λ b. IsClean b.outcome (length b.inputs.items) b.working b.stack.frames
        × IsEmpty b.job b.phase b.outcome };
}

fn larger(a: u64, b: u64) -> u64
    ensures a { a ≤ result }
    ensures b { b ≤ result }
{
    if a < b { b } else { a }
}

// The frames that are enough for each block.
fn deepest(blocks: &[Block]) -> u64
    ensures enough { (k : ℕ) → deep_at blocks.now k ≤ result }
    ensures some { 0 < result }
{
    let mut most = 1;
    for block in blocks {
        most = larger(most, block.deep);
    }
    most
}

impl Bench {
    /// An empty bench for a program, with room for the deepest chain of calls of any of its jobs. Of
    /// all calls of a bench those that make it alone take memory.
    pub fn new(alloc: Global, program: &Program) -> Result<Self, AllocError>
        ensures empty { IfOk result (λ b. b ≡ record {
          phase = 0;
          job = None;
          inputs = replicate (length program.now.cells) (pos 0);
          outcome = None;
          parts = b.parts;
        }) }
        ensures parts { IfOk result (λ b. IsFor program.now b.parts) }
    {
        Self::reading(alloc, program, reads_of_jobs(alloc, program)?)
    }

    /// The bench that [`new`](Self::new) makes, for a program of which it is known what its jobs may
    /// read and write. It costs their ranges, and nothing is found of the jobs' bodies.
    pub fn of(alloc: Global, program: &Program, accesses: &[Access]) -> Result<Self, AllocError>
        requires { AreAccessesOf program.now accesses.now }
        ensures empty { IfOk result (λ b. b ≡ record {
          phase = 0;
          job = None;
          inputs = replicate (length program.now.cells) (pos 0);
          outcome = None;
          parts = b.parts;
        }) }
        ensures parts { IfOk result (λ b. IsFor program.now b.parts) }
    {
        Self::reading(alloc, program, reads_in(alloc, accesses)?)
    }

    // An empty bench for a program whose jobs may read these cells.
    fn reading(
        alloc: Global,
        program: &Program,
        ranges: Items<Items<CellRange>>,
    ) -> Result<Self, AllocError>
        requires many { length ranges ≡ length program.now.jobs }
        requires each { (job : JobId) → job.0 < length program.now.jobs →
            AreCellsOf (length program.now.cells) (reads program.now job) (slice_index_or ranges job.0 []) }
        ensures empty { IfOk result (λ b. b ≡ record {
          phase = 0;
          job = None;
          inputs = replicate (length program.now.cells) (pos 0);
          outcome = None;
          parts = b.parts;
        }) }
        ensures parts { IfOk result (λ b. IsFor program.now b.parts) }
    {
        let cells = program.cells.len();
        let room = deepest(program.blocks.as_slice());
        let inputs = vec![in alloc; 0; cells]?;
        let working = Working::new(alloc, cells, program.slots as usize)?;
        let stack = Stack::new(alloc, room as usize)?;
        Ok(Bench {
            phase: 0,
            job: None,
            outcome: None,
            inputs,
            working,
            stack,
            reads: ranges,
        })
    }

    /// Empties the bench, at the cost of what its job stored.
    pub fn clear(&mut self)
        ensures { self.new ≡ record self.old { phase = 0; job = None; outcome = None } }
    {
        self.working.clear_stored();
        self.phase = 0;
        self.job = None;
        self.outcome = None;
    }

    /// The number that the bench was filled with, and 0 where it is empty.
    pub fn phase(&self) -> u64
        ensures phase { result ≡ self.now.phase }
        ensures empty { self.now.job ≡ None → result ≡ 0 }
    {
        self.phase
    }

    /// The job that is filled in, and None where the bench is empty.
    pub fn job(&self) -> Option<JobId>
        ensures { result ≡ self.now.job }
    {
        self.job
    }

    /// Whether the bench is filled and its job is evaluated.
    pub fn done(&self) -> bool
        ensures done { MatchOption self.now.outcome (result ≡ false) (λ _. result ≡ true) }
        ensures empty { self.now.job ≡ None → result ≡ false }
    {
        self.outcome.is_some()
    }

    /// The fault of the evaluated job, with tic 0, which whoever lists the fault sets. None where the
    /// bench is not done or its job has no fault.
    pub fn fault(&self) -> Option<JobFault>
        ensures { result ≡ fault_of self.now.job self.now.outcome }
    {
        let Some(job) = self.job else {
            return None;
        };
        match self.outcome {
            None => None,
            Some(Ok(())) => None,
            Some(Err(stop)) => Some(JobFault {
                tic: 0,
                job,
                kind: stop.kind,
                line: stop.line,
            }),
        }
    }

    /// Takes the numbers of the cells that a job reads out of a memory, at the cost of these. Nothing
    /// is left of an earlier job.
    pub fn fill<M: Cells>(&mut self, program: &Program, phase: u64, job: JobId, from: &M)
        requires bench { IsFor program.now self.old.parts }
        requires job { job.0 < length program.now.jobs }
        requires memory { length (M.numbers from.now) ≡ length program.now.cells }
        ensures inputs { AgreeOn (reads program.now job) self.new.inputs (M.numbers from.now) }
        ensures rest { self.new ≡ record self.old {
          phase = phase;
          job = Some job;
          outcome = None;
          inputs = self.new.inputs;
        } }
    {
        self.working.clear_stored();
        self.outcome = None;
        self.phase = phase;
        self.job = Some(job);
        let ranges = ranges_of(self.reads.as_slice(), job);
        copy(ranges, from, &mut self.inputs);
    }

    /// Overwrites a memory by what the evaluated job stored, at the cost of that; a fault leaves it as
    /// it is. Of a bench that is done, whoever holds it knows that it is evaluated.
    pub fn store<M: Cells>(&self, program: &Program, into: &mut M)
        requires evaluated { IsEvaluated program.now self.now }
        requires length { length (M.numbers into.old) ≡ length program.now.cells }
        requires scalars { M.scalars into.old ≡ scalars_of program.now.cells }
        ensures numbers { M.numbers into.new
            ≡ after_effect (effect program.now (the_job self.now.job) self.now.inputs) (M.numbers into.old) }
        ensures scalars { M.scalars into.new ≡ M.scalars into.old }
    {
        range_law();
        length_law();
        if let Some(Ok(())) = self.outcome {
            overwrite(&self.working, into);
        }
    }

    /// The first cell of the job's reads at which a memory and the bench's inputs differ, with the
    /// number of the memory and then that of the inputs. None where there is no such cell.
    pub fn differs<M: Cells>(&self, program: &Program, from: &M) -> Option<(Cell, i64, i64)>
        requires bench { IsFor program.now self.now.parts }
        requires filled { IsFilled program.now self.now }
        requires memory { length (M.numbers from.now) ≡ length program.now.cells }
        ensures { MatchOption result (AgreeOn (reads program.now (the_job self.now.job)) (M.numbers from.now)
            self.now.inputs)
            (λ d. IsFirstDifference (reads program.now (the_job self.now.job)) (M.numbers from.now) self.now.inputs
            (d.0).0 d.1 d.2) }
    {
        let job = job_of(self.job);
        let ranges = ranges_of(self.reads.as_slice(), job);
        difference(ranges, from, self.inputs.as_slice())
    }
}

// The job of a bench that is filled.
fn job_of(job: Option<JobId>) -> JobId
    requires filled { job ≡ Some (the_job job) }
    ensures { result ≡ the_job job }
{
    match job {
        Some(job) => job,
        None => unreachable!(),
    }
}

/// Evaluates the job that is filled in: what it stores of its inputs, or its first fault. It costs the
/// steps of the job, and is never refused.
pub fn eval(program: &Program, bench: &mut Bench)
    requires bench { IsFor program.now bench.old.parts }
    requires filled { IsFilled program.now bench.old }
    ensures { bench.new ≡ record bench.old
        { outcome = Some (effect program.now (the_job bench.old.job) bench.old.inputs) } }
{
    let job = job_of(bench.job);
    let base = base(program, job);
    let block = body(program, job);
    bench.working.clear_stored();
    match run(
        program,
        block,
        base,
        bench.inputs.as_slice(),
        &mut bench.working,
        &mut bench.stack,
    ) {
        Ok(()) => {
            bench.outcome = Some(Ok(()));
        }
        Err(stop) => {
            bench.working.clear_stored();
            bench.outcome = Some(Err(stop));
        }
    }
    bench.working.clear_locals();
    bench.stack.clear();
}
