//! Jobs in a line, each with its next tic.
ghost use Rattle.std.specs.Prelude.{◌≡◌, ◌∷◌, ◌++◌, ◌+◌, ◌<◌, ◌≤◌, [], cond, length, vec_capacity};
ghost use Rattle.trick_cycle.specs.Due.{IsInRange, is_due_at};
ghost use Rattle.trick_base.specs.Time.{tic_limit};
ghost use Rattle.trick_queue.specs.Line.{AreKnown, AreNext, AreScheduled, IsPassed, id_at};

use crate::jobs::{next_of, times};
use crate::tree::Tics;
use trick_cycle::{Due, is_due, laws};
use trick_lang::JobId;
use trick_model::Plan;

// The job at a place.
fn job_of(jobs: &[JobId], place: usize) -> JobId
    requires { place < length jobs.now }
    ensures { result.0 ≡ id_at jobs.now place }
{
    jobs[place]
}

// Whether a job is due.
fn is_due_then(times: Due, tic: u64) -> bool
    requires { IsInRange times }
    ensures { result ≡ is_due_at times tic }
{
    laws::due_test_is_exact();
    is_due(times, tic)
}

/// Gives each of these jobs its next tic from a tic on.
pub fn fill(plan: &Plan, jobs: &[JobId], from: u64, tics: &mut Tics)
    requires scheduled { AreScheduled plan.now.program.jobs jobs.now }
    requires as_many { length tics.old ≡ length jobs.now }
    ensures as_many { length tics.new ≡ length jobs.now }
    ensures next { AreNext plan.now.program.jobs jobs.now tics.new from 0 (length jobs.now) }
{
    for place in 0..jobs.len() {
        let times = times(plan, job_of(jobs, place));
        tics.set(place, next_of(times, from));
    }
}

// Notes a job where it is due.
fn note(due: &mut Vec<JobId>, job: JobId, is_due: bool)
    requires { length due.old.items < vec_capacity due.old }
    ensures items { due.new.items ≡ due.old.items ++ cond is_due (job ∷ []) [] }
    ensures capacity { vec_capacity due.new ≡ vec_capacity due.old }
{
    if is_due {
        due.push_reserved(job);
    }
}

/// Passes a tic, which is not above 10^15: notes the jobs that are due then, and gives each job whose tic
/// is not later its next one. Only these are looked at, at a cost that grows with the height of the tree.
/// Takes no memory.
pub fn pass(plan: &Plan, jobs: &[JobId], tic: u64, tics: &mut Tics, due: &mut Vec<JobId>)
    requires scheduled { AreScheduled plan.now.program.jobs jobs.now }
    requires as_many { length tics.old ≡ length jobs.now }
    requires known { AreKnown plan.now.program.jobs jobs.now tics.old tic 0 (length jobs.now) }
    requires empty { due.old.items ≡ [] }
    requires room { length jobs.now ≤ vec_capacity due.old }
    requires tic { tic ≤ tic_limit }
    ensures passed { IsPassed plan.now.program.jobs jobs.now tics.new tic due.new.items }
    ensures capacity { vec_capacity due.new ≡ vec_capacity due.old }
{
    let mut passed = 0;
    while passed < jobs.len() {
        match tics.first_by(tic) {
            None => return,
            Some(place) => {
                let job = job_of(jobs, place);
                let times = times(plan, job);
                note(due, job, is_due_then(times, tic));
                tics.set(place, next_of(times, tic + 1));
                passed = place + 1;
            }
        }
    }
}
