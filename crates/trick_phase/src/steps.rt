//! Takes and commits of jobs by name.

ghost use Rattle.std.specs.Prelude.{◌≡◌, ◌<◌, ◌≤◌, IsSome, length};
ghost use Rattle.trick_phase_board.specs.Board.{IsBoardOf};
ghost use Rattle.trick_eval.specs.Bench.{IsFor};
ghost use Rattle.trick_model.specs.Plan.{thread_of};
ghost use Rattle.trick_phase.specs.Steps.{Commits, HoldsRight, Runs, Takes, has_job};

use trick_eval::{Bench, eval};
use trick_lang::{Cells, JobId};
use trick_model::{Accepted, Plan};
use trick_phase_board::{Board, Commit, Ran, Took};

/// The thread of a job.
pub fn thread_at(plan: &Plan, job: JobId) -> u8
    requires { job.0 < length plan.now.program.jobs }
    ensures thread { result ≡ thread_of plan.now.program.jobs job.0 }
    ensures small { result ≤ 15 }
{
    plan.job(job).thread
}

// Whether the bench has the job.
fn has(bench: &Bench, job: JobId) -> bool
    ensures { result ≡ has_job bench.now.job job }
{
    match bench.job() {
        Some(held) => held.0 == job.0,
        None => false,
    }
}

/// Takes a job where it is the next one of its thread and all of its predecessors are committed, and
/// evaluates it. Otherwise the answer is false, and another job may be taken.
pub fn take_job<M: Cells>(
    board: &mut Board<M>,
    bench: &mut Bench,
    accepted: &Accepted,
    job: JobId,
) -> bool
    requires open { IsSome board.old.opened }
    requires belongs { IsBoardOf accepted.now.plan board.old }
    requires bench { IsFor accepted.now.plan.program bench.old.parts }
    requires there { job.0 < length accepted.now.plan.program.jobs }
    ensures takes { Takes accepted.now.plan board.old board.new job bench.new result }
    ensures belongs { IsBoardOf accepted.now.plan board.new }
    ensures bench { bench.new.parts ≡ bench.old.parts }
{
    let plan = accepted.plan();
    match board.take(accepted, thread_at(plan, job), bench) {
        Took::Took => {
            eval(&plan.program, bench);
            has(bench, job)
        }
        Took::NotYet { .. } => false,
        Took::ThreadDone => false,
    }
}

/// Commits a job that is in the bench. Otherwise the answer is false, and nothing changes.
pub fn commit_job<M: Cells>(
    board: &mut Board<M>,
    bench: &mut Bench,
    accepted: &Accepted,
    job: JobId,
) -> bool
    requires open { IsSome board.old.opened }
    requires belongs { IsBoardOf accepted.now.plan board.old }
    requires bench { IsFor accepted.now.plan.program bench.old.parts }
    requires held { HoldsRight accepted.now.plan board.old bench.old }
    ensures commits { Commits accepted.now.plan board.old board.new job bench.old bench.new result }
    ensures belongs { IsBoardOf accepted.now.plan board.new }
    ensures bench { bench.new.parts ≡ bench.old.parts }
{
    if !has(bench, job) {
        return false;
    }
    match board.commit(accepted, bench) {
        Commit::Committed => true,
        Commit::Stale { .. } | Commit::Gone { .. } | Commit::NotTaken { .. } => unreachable!(),
    }
}

/// Takes a job, evaluates and commits it at once, where it is the next one of its thread and all of its
/// predecessors are committed. Otherwise the answer is false, and another job may be done.
pub fn run_job<M: Cells>(
    board: &mut Board<M>,
    bench: &mut Bench,
    accepted: &Accepted,
    job: JobId,
) -> bool
    requires open { IsSome board.old.opened }
    requires belongs { IsBoardOf accepted.now.plan board.old }
    requires bench { IsFor accepted.now.plan.program bench.old.parts }
    requires there { job.0 < length accepted.now.plan.program.jobs }
    ensures runs { Runs accepted.now.plan board.old board.new job result }
    ensures belongs { IsBoardOf accepted.now.plan board.new }
    ensures bench { bench.new.parts ≡ bench.old.parts }
{
    let thread = thread_at(accepted.plan(), job);
    match board.run(accepted, thread, bench) {
        Ran::Done { job: done } => done.0 == job.0,
        Ran::NotYet { .. } => false,
        Ran::ThreadDone => false,
    }
}
