ghost use Rattle.std.specs.Prelude.{◌≡◌, ◌<◌, length};
ghost use Rattle.trick_eval.specs.Bench.{IsFor};
ghost use Rattle.trick_phase_jobs.specs.Belongs.{AreJobsOf, IsMemoryOf};
ghost use Rattle.trick_model.specs.FaultList.{with_faults};
ghost use Rattle.trick_model.specs.Plan.{is_on};
ghost use Rattle.trick_model.specs.PlanOf.{plan_of};
ghost use Rattle.trick_model.specs.Running.{after_jobs, apply};
ghost use Rattle.trick_model.specs.Valid.{ids};

use crate::Setting;
use trick_eval::{Bench, eval};
use trick_lang::laws::{frame_law, overwrite_law};
use trick_lang::{Cells, JobFault, JobId};
use trick_model::Faults;

/// Runs a job where it is on: what it stores is stored, or its fault is added, with the setting's tic.
/// Takes no memory, and costs what the job reads, does and stores.
pub fn run_job<M: Cells>(
    setting: Setting,
    job: JobId,
    bench: &mut Bench,
    memory: &mut M,
    faults: &mut Faults,
)
    requires bench { IsFor setting.plan.now.program bench.old.parts }
    requires job { job.0 < length setting.plan.now.program.jobs }
    requires memory { IsMemoryOf setting.plan.now.program (M.numbers memory.old) (M.scalars memory.old) }
    ensures memory { M.numbers memory.new
        ≡ (apply (plan_of setting.entry.plan.now) (is_on setting.entry.on.now job.0) setting.entry.tic job.0
        (M.numbers memory.old)).memory }
    ensures faults { faults.new ≡ with_faults
        (apply (plan_of setting.entry.plan.now) (is_on setting.entry.on.now job.0) setting.entry.tic job.0
        (M.numbers memory.old)).faults faults.old }
    ensures belongs { IsMemoryOf setting.entry.plan.now.program (M.numbers memory.new) (M.scalars memory.new) }
    ensures bench { bench.new.parts ≡ bench.old.parts }
{
    frame_law();
    overwrite_law();
    if !setting.on.is_on(job.0 as usize) {
        return;
    }
    let program = &setting.plan.program;
    bench.fill(program, 0, job, memory);
    eval(program, bench);
    bench.store(program, memory);
    if let Some(fault) = bench.fault() {
        faults.add(JobFault {
            tic: setting.tic,
            ..fault
        });
    }
}

/// Runs jobs in this order. Each sees what those before it stored. Takes no memory.
pub fn run_jobs<M: Cells>(
    setting: Setting,
    jobs: &[JobId],
    bench: &mut Bench,
    memory: &mut M,
    faults: &mut Faults,
)
    requires bench { IsFor setting.plan.now.program bench.old.parts }
    requires jobs { AreJobsOf setting.plan.now.program jobs.now }
    requires memory { IsMemoryOf setting.plan.now.program (M.numbers memory.old) (M.scalars memory.old) }
    ensures memory { M.numbers memory.new
        ≡ (after_jobs (plan_of setting.entry.plan.now) (is_on setting.entry.on.now) setting.entry.tic (ids jobs.now)
        (M.numbers memory.old)).memory }
    ensures faults { faults.new ≡ with_faults
        (after_jobs (plan_of setting.entry.plan.now) (is_on setting.entry.on.now) setting.entry.tic (ids jobs.now)
        (M.numbers memory.old)).faults faults.old }
    ensures belongs { IsMemoryOf setting.entry.plan.now.program (M.numbers memory.new) (M.scalars memory.new) }
    ensures bench { bench.new.parts ≡ bench.old.parts }
{
    for job in jobs {
        run_job(setting, *job, bench, memory, faults);
    }
}
