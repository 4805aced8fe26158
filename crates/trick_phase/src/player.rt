ghost use Rattle.std.specs.Prelude.{◌≡◌, ◌<◌, ◌≤◌, ℕ, IfOk, IsSome, MatchBool, None, length};
ghost use Rattle.trick_phase_board.specs.Board.{IsBoardOf};
ghost use Rattle.trick_eval.specs.Bench.{IsFor};
ghost use Rattle.trick_phase_jobs.specs.Belongs.{IsMemoryOf};
ghost use Rattle.trick_model.specs.Order.{jobs_at};
ghost use Rattle.trick_model.specs.PlanOf.{plan_of};
ghost use Rattle.trick_model.specs.Valid.{ids};
ghost use Rattle.trick_model.specs.declared.flags.Flags.{Flags};
ghost use Rattle.trick_phase.specs.Playing.{Plays};
ghost use Rattle.trick_phase.specs.Steps.{AreBenches, Goes, bench_at};
ghost use Rattle.trick_phase_schedules.specs.Tics.{tic_of};

use crate::steps::{commit_job, take_job, thread_at};
use std::alloc::{AllocError, Global};
use trick_base::TIC_LIMIT;
use trick_cycle::laws::due_test_is_exact;
use trick_eval::Bench;
use trick_lang::laws::{frame_law, write_law};
use trick_lang::{Cells, JobId};
use trick_model::laws::key_order_is_one;
use trick_model::{Accepted, Faults, Flags, Plan};
use trick_phase_board::{Board, Closed};
use trick_phase_schedules::Step;
use trick_queue::Queues;
use trick_race::laws::due_jobs_are_settled;

/// What a list of steps comes to.
#[derive(Drop)]
pub enum Played<M> {
    /// The steps are a schedule: the memory after it, and its faults in key order.
    Done { memory: M, faults: Faults },
    /// The place of the first step that no schedule continues with, or the length of a list that is no
    /// whole schedule.
    Wrong { at: usize },
}

// Threads go from 0 to 15.
const THREADS: usize = 16;

// The due jobs of a tic.
fn due_jobs(alloc: Global, plan: &Plan, tic: u64) -> Result<Vec<JobId>, AllocError>
    ensures { IfOk result (λ due. (on : Flags) → ids due.items ≡ jobs_at (plan_of plan.now) on tic) }
{
    due_test_is_exact();
    let mut due = Vec::new(alloc);
    if tic > TIC_LIMIT {
        return Ok(due);
    }
    let mut queues = Queues::new(alloc, plan, tic)?;
    queues.ask(plan, tic);
    due.extend_from_slice(queues.due())?;
    Ok(due)
}

// A bench for each thread.
fn all_benches(alloc: Global, accepted: &Accepted) -> Result<Vec<Bench>, AllocError>
    ensures many { IfOk result (λ benches. length benches.items ≡ 16) }
    ensures own { IfOk result (λ benches. (k : ℕ) → k < 16 →
        IsFor accepted.now.plan.program (bench_at benches.items k).parts) }
    ensures empty { IfOk result (λ benches. (k : ℕ) → k < 16 → (bench_at benches.items k).job ≡ None) }
{
    let program = &accepted.plan().program;
    let accesses = accepted.accesses();
    let mut benches = Vec::new(alloc);
    for thread in 0..THREADS {
        let _thread = thread;
        benches.push(Bench::of(alloc, program, accesses)?)?;
    }
    Ok(benches)
}

// Whether a plan has the job.
fn is_there(plan: &Plan, job: JobId) -> bool
    ensures { MatchBool result (job.0 < length plan.now.program.jobs) (length plan.now.program.jobs ≤ job.0) }
{
    (job.0 as usize) < plan.program.jobs.len()
}

// Does a step, where a schedule can go on with it. None goes on with a job that is not there.
#[tactic(auto, using(crate::proofs::Turns::take_past, crate::proofs::Turns::commit_past))]
fn go<M: Cells>(
    board: &mut Board<M>,
    benches: &mut Vec<Bench>,
    accepted: &Accepted,
    step: Step,
) -> bool
    requires open { IsSome board.old.opened }
    requires belongs { IsBoardOf accepted.now.plan board.old }
    requires benches { AreBenches accepted.now.plan board.old benches.old.items }
    ensures goes { Goes accepted.now.plan board.old board.new benches.old.items benches.new.items step result }
    ensures belongs { IsBoardOf accepted.now.plan board.new }
{
    let plan = accepted.plan();
    match step {
        Step::Take(job) => {
            if !is_there(plan, job) {
                return false;
            }
            let thread = thread_at(plan, job) as usize;
            take_job(board, &mut benches[thread], accepted, job)
        }
        Step::Commit(job) => {
            if !is_there(plan, job) {
                return false;
            }
            let thread = thread_at(plan, job) as usize;
            commit_job(board, &mut benches[thread], accepted, job)
        }
    }
}

/// Plays a list of steps on the due jobs of a tic: a take fills a bench with what its job reads and
/// evaluates it, and a commit stores what it does. It costs the jobs times the jobs for the board, and
/// the steps. This is a yardstick for schedules, which cases call and no run.
pub fn play<M: Cells + Drop>(
    alloc: Global,
    accepted: &Accepted,
    memory: M,
    on: &Flags,
    tic: u64,
    steps: &[Step],
) -> Result<Played<M>, AllocError>
    requires { IsMemoryOf accepted.now.plan.program (M.numbers memory) (M.scalars memory) }
    ensures { IfOk result (Plays M.numbers (tic_of accepted.now.plan on.now tic) (M.numbers memory) steps.now) }
{
    key_order_is_one();
    due_jobs_are_settled();
    frame_law();
    write_law();
    let plan = accepted.plan();
    let due = due_jobs(alloc, plan, tic)?;
    let mut benches = all_benches(alloc, accepted)?;
    let mut board = Board::new(alloc, accepted)?;
    let mut faults = Faults::new(alloc)?;
    board.open(accepted, memory, on, &due, tic);
    for (at, step) in steps.iter().enumerate() {
        if !go(&mut board, &mut benches, accepted, *step) {
            return Ok(Played::Wrong { at });
        }
    }
    match board.close(&mut faults) {
        Closed::Memory(memory) => Ok(Played::Done { memory, faults }),
        Closed::Left { .. } => Ok(Played::Wrong { at: steps.len() }),
    }
}
