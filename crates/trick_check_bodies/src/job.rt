//! The jobs of objects.

ghost use Rattle.std.specs.Prelude.{◌≡◌, ◌+◌, ◌++◌, ◌∷◌, [], IfOk, OnOk};
ghost use Rattle.trick_check_bodies.specs.Jobs.{jobs_from, lines_at, numbers_at, object_jobs};
ghost use Rattle.trick_lang.specs.Syntax.{definitions_of, jobs_of};

use crate::line::{calls_in, lines_at};
use std::alloc::{AllocError, Global as Memory};
use trick_base::Items;
use trick_check_names::Names;
use trick_lang::syntax::{Definition, JobLine};
use trick_lang::{Job, Object};

// A number of 32 bits.
fn small(number: usize) -> Result<u32, AllocError>
    ensures { IfOk result (λ small. small ≡ number) }
{
    u32::try_from(number).map_err(|_| AllocError)
}

fn one_more(number: u32) -> Result<u32, AllocError>
    ensures { IfOk result (λ more. more ≡ number + 1) }
{
    number.checked_add(1).ok_or(AllocError)
}

// The job of a line after those before it.
fn job_of(
    object: u32,
    numbers: &Names<u32>,
    before: &[JobLine],
    line: &JobLine,
) -> Result<Job, AllocError>
    ensures { IfOk result (λ job. job ∷ []
        ≡ object_jobs object numbers.now (jobs_of before.now) (jobs_of (line.now ∷ []))) }
{
    let calls = small(calls_in(&line.method, before))?;
    let instance = one_more(calls)?;
    let number = small(before.len())?;
    let method = numbers.meaning(&line.method).unwrap_or(0);
    Ok(Job {
        object,
        method,
        instance,
        class: line.class,
        thread: line.thread,
        phase: line.phase,
        start: line.start,
        cycle: line.cycle,
        stop: line.stop,
        number,
    })
}

// Adds the jobs of an object.
fn add_jobs(
    object: u32,
    numbers: &Names<u32>,
    lines: &[JobLine],
    jobs: &mut Items<Job>,
) -> Result<(), AllocError>
    ensures { OnOk result (jobs.new ≡ jobs.old ++ object_jobs object numbers.now [] (jobs_of lines.now)) }
{
    for place in 0..lines.len() {
        let job = job_of(object, numbers, &lines[..place], &lines[place])?;
        jobs.push(job)?;
    }
    Ok(())
}

// Adds the jobs of an object of a class, where these are the numbers of all methods.
fn add_object(
    alloc: Memory,
    definitions: &[Definition],
    numbers: &[Names<u32>],
    object: u32,
    class: u32,
    jobs: &mut Items<Job>,
) -> Result<(), AllocError>
    ensures { OnOk result (jobs.new ≡ jobs.old
        ++ object_jobs object (numbers_at numbers.now class) [] (lines_at (definitions_of definitions.now) class)) }
{
    let lines = lines_at(definitions, class);
    let place = class as usize;
    if place >= numbers.len() {
        let none = Names::new(alloc);
        return add_jobs(object, &none, lines, jobs);
    }
    add_jobs(object, &numbers[place], lines, jobs)
}

/// The jobs of all objects, where these are the numbers of the methods of each class, by the number
/// of its definition. It takes time as the square of an object's lines, of which the caller has
/// counted at most 512 in all.
pub fn jobs(
    alloc: Memory,
    definitions: &[Definition],
    numbers: &[Names<u32>],
    objects: &[Object],
) -> Result<Items<Job>, AllocError>
    ensures { IfOk result (λ jobs. jobs ≡ jobs_from (definitions_of definitions.now) numbers.now 0 objects.now) }
{
    let mut jobs = Items::new(alloc);
    for place in 0..objects.len() {
        let object = small(place)?;
        let class = objects[place].class;
        add_object(alloc, definitions, numbers, object, class, &mut jobs)?;
    }
    Ok(jobs)
}
