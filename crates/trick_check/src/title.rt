//! Names of jobs.

ghost use Rattle.std.specs.Prelude.{◌≡◌, IfOk, slice_get};
ghost use Rattle.trick_lang.specs.Names.{job_name, method_name, object_name};

use std::alloc::{AllocError, Global as Memory};
use trick_base::Word;
use trick_lang::{Job, Method, Object};

fn object_name(objects: &[Object], number: usize) -> &[u8]
    ensures { result.now ≡ object_name (slice_get objects.now number) }
{
    if number >= objects.len() {
        return &[];
    }
    objects[number].name.as_slice()
}

fn method_name(methods: &[Method], number: usize) -> &[u8]
    ensures { result.now ≡ method_name (slice_get methods.now number) }
{
    if number >= methods.len() {
        return &[];
    }
    methods[number].name.as_slice()
}

/// The name of a job: its object's, a dot, and its method's.
pub fn job_name(
    alloc: Memory,
    objects: &[Object],
    methods: &[Method],
    job: &Job,
) -> Result<Word, AllocError>
    ensures { IfOk result (λ name. name ≡ job_name objects.now methods.now job.now) }
{
    let mut name = Vec::from_slice(alloc, object_name(objects, job.object as usize))?;
    name.push(b'.')?;
    name.extend_from_slice(method_name(methods, job.method as usize))?;
    Ok(Word::from_vec(name))
}
