//! What a plan says of its jobs.

ghost use Rattle.std.specs.List.{slice_index_or};
ghost use Rattle.std.specs.Prelude.{◌≡◌, ◌<◌, [], All, length};
ghost use Rattle.trick_lang.specs.declared.job.JobId.{JobId};
ghost use Rattle.trick_model.specs.Order.{jobs_in, rank as rank_of};
ghost use Rattle.trick_model.specs.Plan.{is_on_async as is_on_async_of, is_on_scheduled as is_on_scheduled_of, job_at, process_in, thread_of};
ghost use Rattle.trick_model.specs.Valid.{ids};

use crate::{Plan, Process, process_of, rank};
use trick_base::Items;
use trick_lang::{Class, Job, JobId};

impl Plan {
    /// The job of a number.
    pub fn job(&self, job: JobId) -> &Job
        requires { job.0 < length self.now.program.jobs }
        ensures { result.now ≡ job_at self.now.program.jobs job.0 }
    {
        &self.program.jobs.as_slice()[job.0 as usize]
    }

    // The queue of a class.
    fn queue(&self, class: Class) -> &Items<JobId>
        ensures { result.now ≡ slice_index_or self.now.queues (rank_of class) [] }
    {
        &self.queues.as_slice()[rank(class) as usize]
    }

    /// The jobs of a class, in key order.
    pub fn jobs_of_class(&self, class: Class) -> &[JobId]
        ensures jobs { ids result.now ≡ jobs_in self.now.program.jobs class }
        ensures there { All (λ (job : JobId). job.0 < length self.now.program.jobs) result.now }
    {
        self.queue(class).as_slice()
    }

    // How the jobs of a job's thread run.
    fn process(&self, job: JobId) -> Process
        requires { job.0 < length self.now.program.jobs }
        ensures { result ≡ process_in self.now.threads (thread_of self.now.program.jobs job.0) }
    {
        process_of(self.threads.as_slice(), self.job(job).thread)
    }

    /// Whether a job is on a scheduled thread.
    pub fn is_on_scheduled(&self, job: JobId) -> bool
        requires { job.0 < length self.now.program.jobs }
        ensures { result ≡ is_on_scheduled_of self.now.program.jobs self.now.threads job.0 }
    {
        self.process(job).is_in_tics()
    }

    /// Whether a job is on an asynchronous thread.
    pub fn is_on_async(&self, job: JobId) -> bool
        requires { job.0 < length self.now.program.jobs }
        ensures { result ≡ is_on_async_of self.now.program.jobs self.now.threads job.0 }
    {
        self.process(job).is_async()
    }
}
