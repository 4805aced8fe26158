//! The threads that get a worker.
ghost use Rattle.std.specs.Prelude.{◌≡◌, ◌==◌, ◌≤◌, IfOk, filter, length};
ghost use Rattle.std.specs.List.{list_any};
ghost use Rattle.trick_crew_team.specs.Children.{children, is_child};

use std::alloc::{AllocError, Global};
use trick_lang::Job;
use trick_model::{Plan, process_of};

// The numbers that child threads may have.
const NUMBERS: [u8; 15] = [1, 2, 3, 4, 5, 6, 7, 8, 9, 10, 11, 12, 13, 14, 15];

// Whether some job is on the thread.
fn has_job(jobs: &[Job], number: u8) -> bool
    ensures { result ≡ list_any (λ job. job.thread == number) jobs.now }
{
    jobs.iter().any(|job| job.thread == number)
}

// Whether a thread gets a worker: it is scheduled, and has a job.
fn is_child(plan: &Plan, number: u8) -> bool
    ensures { result ≡ is_child plan.now number }
{
    process_of(plan.threads.as_slice(), number).is_in_tics()
        && has_job(plan.program.jobs.as_slice(), number)
}

// Those of some threads that get a worker.
fn children_among(alloc: Global, plan: &Plan, numbers: &[u8]) -> Result<Vec<u8>, AllocError>
    ensures { IfOk result (λ threads. threads.items ≡ filter (is_child plan.now) numbers.now) }
{
    let mut threads = Vec::new(alloc);
    for number in numbers {
        if is_child(plan, *number) {
            threads.push(*number)?;
        }
    }
    Ok(threads)
}

/// The child threads that get a worker, by rising number: those that are scheduled and have a job.
pub(crate) fn children(alloc: Global, plan: &Plan) -> Result<Vec<u8>, AllocError>
    ensures children { IfOk result (λ threads. threads.items ≡ children plan.now) }
    ensures few { IfOk result (λ threads. length threads.items ≤ 15) }
{
    children_among(alloc, plan, &NUMBERS)
}
