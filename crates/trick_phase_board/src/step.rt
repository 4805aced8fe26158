//! What the calls of a board do to its lists, and to the memory.

ghost use Rattle.std.specs.List.{slice_index_or};
ghost use Rattle.std.specs.Prelude.{◌≡◌, ℕ, ◌+◌, ◌<◌, ◌≤◌, [], Some, None, false, true, length, replicate, slice_set, vec_capacity};
ghost use Rattle.trick_phase_board.specs.Answers.{open_count};
ghost use Rattle.trick_phase_board.specs.Board.{AreDueAmong, next_phase as next_phase_of};
ghost use Rattle.trick_eval.specs.Bench.{IsEvaluated, the_job};
ghost use Rattle.trick_phase_jobs.specs.Belongs.{IsMemoryOf};
ghost use Rattle.trick_lang.specs.Effect.{reads};
ghost use Rattle.trick_lang.specs.Laws.{AgreeOn};
ghost use Rattle.trick_model.specs.FaultList.{with_faults};
ghost use Rattle.trick_model.specs.Plan.{is_on};
ghost use Rattle.trick_model.specs.PlanOf.{plan_of};
ghost use Rattle.trick_model.specs.Running.{apply};
ghost use Rattle.trick_model.specs.Valid.{ids};
ghost use Rattle.trick_phase_schedules.specs.Play.{faults_in, first_fault, with_waiting};
ghost use Rattle.trick_phase_schedules.specs.declared.stage.Stage.TheVariants.{Idle};

use crate::search::stage_of;
use trick_eval::Bench;
use trick_lang::laws::{frame_law, overwrite_law};
use trick_lang::{Cells, JobFault, JobId};
use trick_model::{Faults, Flags, Plan};
use trick_phase_schedules::Stage;

/// The phase after another one.
pub fn next_phase(phase: u64) -> u64
    ensures { result ≡ next_phase_of phase }
{
    if phase == u64::MAX { 1 } else { phase + 1 }
}

/// Whether a flag is on.
pub fn is_flagged(on: &[bool], job: JobId) -> bool
    ensures { result ≡ slice_index_or on.now job.0 false }
{
    match on.get(job.0 as usize) {
        Some(on) => *on,
        None => false,
    }
}

// Copies the flag of each job, where there may be fewer flags than jobs.
fn copy_each_flag(on: &Flags, into: &mut Vec<bool>)
    ensures length { length into.new.items ≡ length into.old.items }
    ensures flags { (k : ℕ) → k < length into.old.items → slice_index_or into.new.items k false ≡ is_on on.now k }
{
    for job in 0..into.len() {
        into[job] = on.is_on(job);
    }
}

/// Copies the flags of all jobs: as a block, where there are as many.
pub fn copy_flags(on: &Flags, into: &mut Vec<bool>)
    ensures length { length into.new.items ≡ length into.old.items }
    ensures flags { (k : ℕ) → k < length into.old.items → slice_index_or into.new.items k false ≡ is_on on.now k }
{
    let flags = on.on.as_slice();
    if flags.len() == into.len() {
        into.copy_from_slice(flags);
    } else {
        copy_each_flag(on, into);
    }
}

/// Gives a job a stage.
pub fn set_stage(stages: &mut Vec<Stage>, job: JobId, stage: Stage)
    ensures { stages.new.items ≡ slice_set stages.old.items job.0 stage }
{
    if (job.0 as usize) < stages.len() {
        stages[job.0 as usize] = stage;
    }
}

/// Lets each of these jobs wait, and no other one be due. Only the jobs of `last` were due.
pub fn let_wait(due: &[JobId], last: &[JobId], stages: &mut Vec<Stage>)
    requires { AreDueAmong (ids last.now) stages.old.items }
    ensures { stages.new.items ≡ with_waiting (ids due.now) (replicate (length stages.old.items) Idle) }
{
    clear_stages(last, stages);
    mark_waiting(due, stages);
}

// No job is due any more, where only these were.
fn clear_stages(last: &[JobId], stages: &mut Vec<Stage>)
    requires { AreDueAmong (ids last.now) stages.old.items }
    ensures { stages.new.items ≡ replicate (length stages.old.items) Idle }
{
    for job in last {
        set_stage(stages, *job, Stage::Idle);
    }
}

// Each of these jobs waits.
fn mark_waiting(due: &[JobId], stages: &mut Vec<Stage>)
    ensures { stages.new.items ≡ with_waiting (ids due.now) stages.old.items }
{
    for job in due {
        set_stage(stages, *job, Stage::Waiting);
    }
}

/// Copies jobs into a buffer that has room for them.
pub fn copy_jobs(jobs: &[JobId], into: &mut Vec<JobId>)
    requires { length jobs.now ≤ vec_capacity into.old }
    ensures items { into.new.items ≡ jobs.now }
    ensures room { vec_capacity into.new ≡ vec_capacity into.old }
{
    into.clear();
    for job in jobs {
        into.push_reserved(*job);
    }
}

/// Stores what the evaluated job of a bench does, and gives its fault. The memory has the inputs of
/// the bench.
pub fn finish<M: Cells>(
    plan: &Plan,
    tic: u64,
    job: JobId,
    bench: &Bench,
    memory: &mut M,
) -> Option<JobFault>
    requires job { bench.now.job ≡ Some job }
    requires evaluated { IsEvaluated plan.now.program bench.now }
    requires inputs { AgreeOn (reads plan.now.program job) (M.numbers memory.old) bench.now.inputs }
    requires memory { IsMemoryOf plan.now.program (M.numbers memory.old) (M.scalars memory.old) }
    ensures memory { M.numbers memory.new ≡ (apply (plan_of plan.now) true tic job.0 (M.numbers memory.old)).memory }
    ensures fault { result ≡ first_fault (apply (plan_of plan.now) true tic job.0 (M.numbers memory.old)).faults }
    ensures scalars { M.scalars memory.new ≡ M.scalars memory.old }
    ensures length { length (M.numbers memory.new) ≡ length (M.numbers memory.old) }
{
    frame_law();
    overwrite_law();
    bench.store(&plan.program, memory);
    match bench.fault() {
        Some(fault) => Some(JobFault { tic, ..fault }),
        None => None,
    }
}

/// How many of these jobs are not committed.
pub fn count_open(due: &[JobId], stages: &[Stage]) -> u32
    requires { length due.now < 65536 }
    ensures { result ≡ open_count stages.now (ids due.now) }
{
    let mut count = 0;
    for job in due {
        if !matches!(stage_of(stages, *job), Stage::Done(_)) {
            count += 1;
        }
    }
    count
}

/// Adds the faults of these jobs, in their order.
pub fn add_faults(due: &[JobId], stages: &[Stage], faults: &mut Faults)
    ensures { faults.new ≡ with_faults (faults_in stages.now (ids due.now)) faults.old }
{
    for job in due {
        if let Stage::Done(Some(fault)) = stage_of(stages, *job) {
            faults.add(fault);
        }
    }
}
