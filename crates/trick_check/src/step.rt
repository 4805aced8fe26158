//! The static steps of jobs.

ghost use Rattle.std.specs.Prelude.{◌≡◌, ◌<◌, ℕ, IfErr, IfOk, IsTrue, MatchOption, OnOk, Some, length, slice_get};
ghost use Rattle.trick_check_bodies.specs.Classes.{made};
ghost use Rattle.trick_check.specs.Refused.{IsFirstLong, IsStepFault, steps_by};
ghost use Rattle.trick_lang.specs.Valid.{are_short, method_of};

use crate::CheckFault;
use crate::title::job_name;
use std::alloc::{AllocError, Global as Memory};
use trick_check_bodies::Bodies;
use trick_check_steps::{laws, steps};
use trick_lang::{Job, Method, Object};

/// The most static steps that a job has.
const STEP_LIMIT: u64 = 1_000_000;

// The static steps of a job, where these are those of each block.
fn job_steps(steps: &[u64], methods: &[Method], job: &Job) -> u64
    ensures { result ≡ steps_by steps.now (method_of methods.now (Some job.now)) }
{
    let number = job.method as usize;
    if number >= methods.len() {
        return 0;
    }
    let block = methods[number].block as usize;
    if block < steps.len() { steps[block] } else { 0 }
}

// The first job that has too many steps.
fn first_long(alloc: Memory, bodies: &Bodies, jobs: &[Job]) -> Result<Option<usize>, AllocError>
    ensures { IfOk result (λ found. MatchOption found
        (IsTrue (are_short bodies.now.blocks.items bodies.now.methods jobs.now))
        (λ number. (number < length jobs.now)
        × ((job : _) → slice_get jobs.now number ≡ Some job → IsFirstLong (made bodies.now) jobs.now number job))) }
{
    laws::steps_law();
    let steps = steps(alloc, &bodies.blocks)?;
    let methods = bodies.methods.as_slice();
    for number in 0..jobs.len() {
        let count = job_steps(&steps, methods, &jobs[number]);
        if count > STEP_LIMIT {
            return Ok(Some(number));
        }
    }
    Ok(None)
}

/// Refuses the first job that has too many static steps.
pub fn check_steps(
    alloc: Memory,
    bodies: &Bodies,
    objects: &[Object],
    jobs: &[Job],
) -> Result<(), CheckFault>
    ensures short { OnOk result (IsTrue (are_short bodies.now.blocks.items bodies.now.methods jobs.now)) }
    ensures refused { IfErr result (λ fault. IsStepFault (made bodies.now) objects.now jobs.now fault) }
{
    let Some(number) = first_long(alloc, bodies, jobs)? else {
        return Ok(());
    };
    let long = &jobs[number];
    let job = job_name(alloc, objects, bodies.methods.as_slice(), long)?;
    Err(CheckFault::TooManySteps {
        job,
        instance: long.instance,
    })
}
