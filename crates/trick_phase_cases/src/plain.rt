//! The plain forms of what queues and boards answer: they look at each job, as the rules are read.

use std::alloc::{AllocError, Global};
use trick_lang::{Class, Job, JobId};
use trick_model::{Depends, Plan};
use trick_phase_board::Took;

// Whether a job of class scheduled is due at a tic.
fn is_due(job: &Job, tic: u64) -> bool {
    job.start <= tic && tic <= job.stop && job.cycle > 0 && (tic - job.start) % job.cycle == 0
}

// Whether a job is due at some tic from one on and below another.
fn is_due_within(job: &Job, from: u64, end: u64) -> bool {
    for tic in from..end {
        if is_due(job, tic) {
            return true;
        }
    }
    false
}

/// The due jobs of a tic on scheduled threads, in key order.
pub(crate) fn due_at(alloc: Global, plan: &Plan, tic: u64) -> Result<Vec<JobId>, AllocError> {
    let mut due = Vec::new(alloc);
    let all = plan.jobs_of_class(Class::Scheduled);
    for job in all {
        if plan.is_on_scheduled(*job) && is_due(plan.job(*job), tic) {
            due.push(*job)?;
        }
    }
    Ok(due)
}

/// How many jobs on scheduled threads are due at some tic from one on and below another.
pub(crate) fn count_due(plan: &Plan, from: u64, end: u64) -> u64 {
    let mut count = 0u64;
    let all = plan.jobs_of_class(Class::Scheduled);
    for job in all {
        if plan.is_on_scheduled(*job) && is_due_within(plan.job(*job), from, end) {
            count = count.saturating_add(1);
        }
    }
    count
}

/// The least tic from one on, of the next 64, at which a job is due. `None` where there is none among these.
pub(crate) fn next_due(plan: &Plan, from: u64) -> Option<u64> {
    let end = from.saturating_add(64);
    for tic in from..end {
        if count_due(plan, tic, tic.saturating_add(1)) > 0 {
            return Some(tic);
        }
    }
    None
}

// Whether one job waits for another by a pair of the input.
fn is_pair(pairs: &[Depends], target: JobId, depended: JobId) -> bool {
    for pair in pairs {
        if pair.target == target && pair.depended == depended {
            return true;
        }
    }
    false
}

// The thread of a job; one that no job has where there is no such job.
fn thread_of(plan: &Plan, job: JobId) -> u8 {
    match plan.program.jobs.as_slice().get(job.0 as usize) {
        Some(job) => job.thread,
        None => u8::MAX,
    }
}

/// The due jobs of a tic, those that were taken, and those of them that were committed.
#[derive(Drop)]
pub(crate) struct Doing {
    due: Vec<JobId>,
    pub(crate) taken: Vec<JobId>,
    pub(crate) committed: Vec<JobId>,
}

impl Doing {
    /// The due jobs of a tic, of which none was taken.
    pub(crate) fn new(alloc: Global, plan: &Plan, tic: u64) -> Result<Self, AllocError> {
        let due = due_at(alloc, plan, tic)?;
        Ok(Doing {
            due,
            taken: Vec::new(alloc),
            committed: Vec::new(alloc),
        })
    }

    // The first due job that a job waits for: one that is not committed, and stands before the job on its thread or in
    // a pair with it.
    fn waits_for(&self, plan: &Plan, job: JobId) -> Option<JobId> {
        let thread = thread_of(plan, job);
        let mut is_before = true;
        for other in &self.due {
            is_before = is_before && *other != job;
            let is_first = is_before && thread_of(plan, *other) == thread;
            let is_waited_for = is_first || is_pair(plan.depends.as_slice(), job, *other);
            if is_waited_for && !self.committed.contains(other) {
                return Some(*other);
            }
        }
        None
    }

    // The first due job of a thread that is not among these jobs.
    fn first_on(&self, plan: &Plan, thread: u8, passed: &[JobId]) -> Option<JobId> {
        for job in &self.due {
            if thread_of(plan, *job) == thread && !passed.contains(job) {
                return Some(*job);
            }
        }
        None
    }

    // What a take of a thread comes to of which each due job is taken.
    fn after_last(&self, plan: &Plan, thread: u8) -> Took {
        match self.first_on(plan, thread, &self.committed) {
            Some(job) => Took::NotYet {
                job,
                waits_for: job,
            },
            None => Took::ThreadDone,
        }
    }

    /// What a take of a thread comes to, and the job that it takes.
    pub(crate) fn take(&self, plan: &Plan, thread: u8) -> (Took, Option<JobId>) {
        let Some(job) = self.first_on(plan, thread, &self.taken) else {
            return (self.after_last(plan, thread), None);
        };
        match self.waits_for(plan, job) {
            Some(waits_for) => (Took::NotYet { job, waits_for }, None),
            None => (Took::Took, Some(job)),
        }
    }
}
