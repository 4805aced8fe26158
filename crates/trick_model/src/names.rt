//! The cells and jobs of a program, and their names.

ghost use Rattle.std.specs.Prelude.{◌≡◌, ◌<◌, ◌++◌, OnOk, length, slice_get};
ghost use Rattle.trick_lang.specs.Effect.{scalars_of};
ghost use Rattle.trick_lang.specs.Names.{job_name, method_name as name_of_method, object_name as name_of_object};
ghost use Rattle.trick_lang.specs.Wrap.{scalar_at};
ghost use Rattle.trick_model.specs.NameAt.{cell_name as name_of_cell, name_of_job};
ghost use Rattle.trick_model.specs.Plan.{job_at};

use std::alloc::AllocError;
use trick_lang::{Cell, Job, JobId, Program, Scalar};

/// The full name of a cell by its number; no byte where it is not there.
pub fn cell_name(program: &Program, cell: Cell) -> &[u8]
    ensures { result.now ≡ name_of_cell program.now.cells cell.0 }
{
    match program.cells.as_slice().get(cell.0 as usize) {
        Some(variable) => variable.name.as_slice(),
        None => b"",
    }
}

/// The type of a cell.
pub fn cell_type(program: &Program, cell: Cell) -> Scalar
    requires { cell.0 < length program.now.cells }
    ensures { result ≡ scalar_at (scalars_of program.now.cells) cell.0 }
{
    program.cells.as_slice()[cell.0 as usize].scalar
}

/// The type of a cell by its number; where it is not there it is no cell's, and `Long`.
pub fn cell_type_or_long(program: &Program, cell: Cell) -> Scalar
    ensures { result ≡ scalar_at (scalars_of program.now.cells) cell.0 }
{
    if (cell.0 as usize) < program.cells.len() {
        cell_type(program, cell)
    } else {
        Scalar::Long
    }
}

// The job of a number.
fn job_of(program: &Program, job: JobId) -> &Job
    requires { job.0 < length program.now.jobs }
    ensures { result.now ≡ job_at program.now.jobs job.0 }
{
    &program.jobs.as_slice()[job.0 as usize]
}

/// The name of the object of a job.
pub fn object_name(program: &Program, job: JobId) -> &[u8]
    requires { job.0 < length program.now.jobs }
    ensures { result.now ≡ name_of_object (slice_get program.now.objects (job_at program.now.jobs job.0).object) }
{
    let object = job_of(program, job).object;
    program.objects.as_slice()[object as usize].name.as_slice()
}

/// The name of the method of a job.
pub fn method_name(program: &Program, job: JobId) -> &[u8]
    requires { job.0 < length program.now.jobs }
    ensures { result.now ≡ name_of_method (slice_get program.now.methods (job_at program.now.jobs job.0).method) }
{
    let method = job_of(program, job).method;
    program.methods.as_slice()[method as usize].name.as_slice()
}

/// Appends the name of a job: its object's, a dot, and its method's. The only refusal is for want of
/// memory.
pub fn push_job_name(text: &mut Vec<u8>, program: &Program, job: JobId) -> Result<(), AllocError>
    requires { job.0 < length program.now.jobs }
    ensures { OnOk result (text.new.items ≡ text.old.items ++
        job_name program.now.objects program.now.methods (job_at program.now.jobs job.0)) }
{
    text.extend_from_slice(object_name(program, job))?;
    text.extend_from_slice(b".")?;
    text.extend_from_slice(method_name(program, job))
}

/// Appends the name of a job by its number; no byte where it is not there. The only refusal is for
/// want of memory.
pub fn push_name_at(text: &mut Vec<u8>, program: &Program, job: JobId) -> Result<(), AllocError>
    ensures { OnOk result (text.new.items ≡ text.old.items ++ name_of_job program.now job.0) }
{
    if (job.0 as usize) < program.jobs.len() {
        push_job_name(text, program, job)
    } else {
        Ok(())
    }
}

/// The instance of a job by its number; 0 where it is not there.
pub fn instance_at(program: &Program, job: JobId) -> u32
    ensures { result ≡ (job_at program.now.jobs job.0).instance }
{
    match program.jobs.as_slice().get(job.0 as usize) {
        Some(job) => job.instance,
        None => 0,
    }
}
