//! The jobs that lines name.

ghost use Rattle.std.specs.Prelude.{◌≡◌, ◌<◌, IfSome, length};
ghost use Rattle.trick_plan_draft.specs.Jobs.{job_named, jobs_of, waiting_job};
ghost use Rattle.trick_model.specs.Plan.{job_at};
ghost use Rattle.trick_model.specs.Valid.{can_depend};

use trick_base::Word;
use trick_lang::{Class, Job, JobId, Program};
use trick_model::{Thread, is_of_class, process_of};
use trick_plan_deeds::find_job;

/// The job of a name and an instance. It takes time as there are jobs, and no memory.
pub fn job_of(program: &Program, name: &Word, instance: u64) -> Option<JobId>
    ensures job { result ≡ job_named (jobs_of program.now) name.now instance }
    ensures within { IfSome result (λ job. job.0 < length program.now.jobs) }
{
    find_job(program, name.as_slice(), instance)
}

// The job of a number.
fn job_at(jobs: &[Job], job: JobId) -> &Job
    requires { job.0 < length jobs.now }
    ensures { result.now ≡ job_at jobs.now job.0 }
{
    &jobs[job.0 as usize]
}

// Whether a job is of class scheduled, on a scheduled thread.
fn can_depend(program: &Program, threads: &[Thread], job: JobId) -> bool
    requires { job.0 < length program.now.jobs }
    ensures { result ≡ can_depend program.now.jobs threads.now job }
{
    let found = job_at(program.jobs.as_slice(), job);
    is_of_class(found, Class::Scheduled) && process_of(threads, found.thread).is_in_tics()
}

/// The job of a name and an instance, if it can wait for another one and be waited for: it is of
/// class scheduled, and on a scheduled thread. It takes time as there are jobs, and no memory.
pub fn waiting_job(
    program: &Program,
    threads: &[Thread],
    name: &Word,
    instance: u64,
) -> Option<JobId>
    ensures { result ≡ waiting_job (jobs_of program.now) threads.now name.now instance }
{
    let job = job_of(program, name, instance)?;
    if can_depend(program, threads, job) {
        Some(job)
    } else {
        None
    }
}
