//! The threads of a plan.

ghost use Rattle.std.specs.List.{list_any};
ghost use Rattle.std.specs.Prelude.{◌≡◌, ◌==◌, ◌≤◌, All, IfOk, length};
ghost use Rattle.trick_lang.specs.declared.job.Job.{Job};
ghost use Rattle.trick_model.specs.Plan.{has_job};
ghost use Rattle.trick_model.specs.Valid.{IsFrame, is_there};
ghost use Rattle.trick_plan_settings.specs.Threads.{AreThreads, HasCycle, is_named, thread_of, threads_of};

use crate::Setting;
use std::alloc::{AllocError, Global};
use trick_base::Items;
use trick_lang::{Job, Program};
use trick_model::{Process, Thread};

// The thread of a number, by what the input says of it.
fn thread_of(number: u8, setting: &Setting, frame: u64) -> Thread
    ensures { result ≡ thread_of frame number setting.now }
{
    Thread {
        number,
        process: setting.process.unwrap_or(Process::Scheduled),
        cycle: setting.cycle.unwrap_or(frame),
        named: setting.process.is_some() || setting.cycle.is_some(),
    }
}

// Whether some job is on the thread.
fn has_job(jobs: &[Job], thread: &Thread) -> bool
    ensures { result ≡ has_job jobs.now thread.now }
{
    let number = thread.number;
    jobs.iter().any(|job| job.thread == number)
}

// Whether the plan has the thread.
fn is_there(jobs: &[Job], thread: &Thread) -> bool
    ensures { result ≡ is_there jobs.now thread.now }
{
    thread.number == 0 || thread.named || has_job(jobs, thread)
}

// The threads that a plan has, of those of all numbers.
fn needed(
    alloc: Global,
    jobs: &[Job],
    settings: &[Setting],
    frame: u64,
) -> Result<Items<Thread>, AllocError>
    requires { length settings.now ≤ 16 }
    ensures { IfOk result (λ threads. threads ≡ threads_of jobs.now frame settings.now) }
{
    let mut threads = Items::new(alloc);
    let mut number: u8 = 0;
    for setting in settings {
        let thread = thread_of(number, setting, frame);
        if is_there(jobs, &thread) {
            threads.push(thread)?;
        }
        number += 1;
    }
    Ok(threads)
}

/// The threads of a plan by rising number: thread 0, each child thread with a job, and each thread that
/// the input names. `settings` says by number, from 0 to 15, what the input says of a thread. The page
/// RULES of the documents says what a thread is.
pub fn threads(
    alloc: Global,
    program: &Program,
    settings: &[Setting],
    frame: u64,
) -> Result<Items<Thread>, AllocError>
    requires frame { IsFrame frame }
    requires numbers { length settings.now ≡ 16 }
    requires cycles { All HasCycle settings.now }
    ensures threads { IfOk result (λ threads. threads ≡ threads_of program.now.jobs frame settings.now) }
    ensures facts { IfOk result (AreThreads program.now.jobs) }
{
    needed(alloc, program.jobs.as_slice(), settings, frame)
}
