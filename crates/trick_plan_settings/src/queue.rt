//! The jobs of each class, in the order of their keys.

ghost use Rattle.std.specs.Prelude.{◌≡◌, ◌==◌, ◌≤◌, All, IfOk, OnOk, IsPermutation, filter, length, map};
ghost use Rattle.std.specs.List.Sorted.{IsNonDecreasingBy};
ghost use Rattle.trick_lang.specs.declared.class.Class.{Class};
ghost use Rattle.trick_model.specs.Order.{jobs_in};
ghost use Rattle.trick_model.specs.Plan.{job_numbers};
ghost use Rattle.trick_model.specs.Valid.{ids, queues_of};
ghost use Rattle.trick_plan_settings.specs.Keys.{HasSmallKey, entry_of, jobs_of, key_number, key_of, numbers_of};
ghost use Rattle.trick_plan_settings.specs.declared.queue.Entry.{Entry};

use std::alloc::{AllocError, Global};
use trick_base::Items;
use trick_lang::{Class, Job, JobId, Program};
use trick_model::is_of_class;

// A job with the number that its key is among the jobs of its class.
#[derive(Clone, Copy, Debug)]
pub(crate) struct Entry {
    key: u128,
    job: JobId,
}

// The classes by rank.
const CLASSES: [Class; 10] = [
    Class::DefaultData,
    Class::Initialization,
    Class::Scheduled,
    Class::TopOfFrame,
    Class::EndOfFrame,
    Class::Freeze,
    Class::Unfreeze,
    Class::Checkpoint,
    Class::Restart,
    Class::Shutdown,
];

// Phase, object and number in the constructor, compared in this order, as one number.
fn key_number(job: &Job) -> u128
    ensures key { result ≡ key_number job.now }
    ensures small { HasSmallKey job.now }
{
    u128::from(job.phase) * 18_446_744_073_709_551_616
        + u128::from(job.object) * 4_294_967_296
        + u128::from(job.number)
}

// The jobs of a class with their keys, in program order.
fn entries(alloc: Global, jobs: &[Job], class: Class) -> Result<Vec<Entry>, AllocError>
    requires { length jobs.now ≤ 512 }
    ensures jobs { IfOk result (λ found. found.items ≡ map (entry_of jobs.now) (numbers_of jobs.now class)) }
    ensures small { OnOk result (All HasSmallKey jobs.now) }
{
    let mut found = Vec::new(alloc);
    for place in 0..jobs.len() {
        let key = key_number(&jobs[place]);
        if is_of_class(&jobs[place], class) {
            let job = JobId(place as u32);
            found.push(Entry { key, job })?;
        }
    }
    Ok(found)
}

// Puts jobs of one class in the order of their keys.
fn put_in_order(found: &mut Vec<Entry>) -> Result<(), AllocError>
    ensures order { OnOk result (IsNonDecreasingBy key_of found.new.items) }
    ensures same { OnOk result (IsPermutation found.old.items found.new.items) }
{
    found.sort_by_key(|entry| entry.key)?;
    Ok(())
}

// The jobs without their keys.
fn without_keys(alloc: Global, found: &[Entry]) -> Result<Items<JobId>, AllocError>
    ensures { IfOk result (λ jobs. ids jobs ≡ jobs_of found.now) }
{
    let mut jobs = Items::new(alloc);
    for entry in found {
        jobs.push(entry.job)?;
    }
    Ok(jobs)
}

// The jobs of a class in the order of their keys.
fn queue(alloc: Global, program: &Program, class: Class) -> Result<Items<JobId>, AllocError>
    ensures { IfOk result (λ jobs. ids jobs ≡ jobs_in program.now.jobs class) }
{
    let mut found = entries(alloc, program.jobs.as_slice(), class)?;
    put_in_order(&mut found)?;
    without_keys(alloc, &found)
}

// The queues of these classes, in their order.
fn queues_of(
    alloc: Global,
    program: &Program,
    classes: &[Class],
) -> Result<Items<Items<JobId>>, AllocError>
    ensures { IfOk result (λ queues. map ids queues ≡ map (jobs_in program.now.jobs) classes.now) }
{
    let mut queues = Items::new(alloc);
    for class in classes {
        queues.push(queue(alloc, program, *class)?)?;
    }
    Ok(queues)
}

/// The queues of a plan: for each class, by rank, its jobs in the order of their keys. It takes time as
/// a sort of the jobs does.
pub fn queues(alloc: Global, program: &Program) -> Result<Items<Items<JobId>>, AllocError>
    ensures { IfOk result (λ queues. map ids queues ≡ queues_of program.now.jobs) }
{
    queues_of(alloc, program, &CLASSES)
}
