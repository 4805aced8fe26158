//! Cells and jobs by their names.

ghost use Rattle.std.specs.Prelude.{◌≡◌, ◌<◌, ◌==◌, ◌&&◌, ◌++◌, ◌∷◌, IfSome, length, map, option_map};
ghost use Rattle.std.specs.Str.{bytes_eq};
ghost use Rattle.trick_lang.specs.Names.{dot, job_name};
ghost use Rattle.trick_lang.specs.declared.job.JobId.{JobId};
ghost use Rattle.trick_model.specs.Names.{find_job, find_name};
ghost use Rattle.trick_model.specs.Plan.{job_at};
ghost use Rattle.trick_model.specs.Session.{cell_found};
ghost use Rattle.trick_model.specs.Valid.{cell_names};

use crate::named::place_of;
use trick_lang::{Cell, JobId, Program};
use trick_model::{method_name, object_name};

/// The cell of a full name, byte for byte. It takes time as there are cells, and no memory.
pub fn find_cell(program: &Program, name: &[u8]) -> Option<Cell>
    ensures cell { result ≡ cell_found (find_name name.now (cell_names program.now.cells)) }
    ensures within { IfSome result (λ cell. cell.0 < length program.now.cells) }
{
    let place = place_of(program.cells.as_slice(), name)?;
    Some(Cell(place as u32))
}

// Whether a name is that of an object, a dot, and that of a method.
fn is_joined(name: &[u8], object: &[u8], method: &[u8]) -> bool
    ensures { result ≡ bytes_eq name.now (object.now ++ dot ∷ method.now) }
{
    let Some(rest) = name.strip_prefix(object) else {
        return false;
    };
    let Some((first, behind)) = rest.split_first() else {
        return false;
    };
    *first == b'.' && behind == method
}

// Whether the job has this name and instance.
fn is_job(program: &Program, job: JobId, name: &[u8], instance: u64) -> bool
    requires { job.0 < length program.now.jobs }
    ensures { result ≡
        (bytes_eq name.now (job_name program.now.objects program.now.methods (job_at program.now.jobs job.0))
        && ((job_at program.now.jobs job.0).instance == instance)) }
{
    let found = program.jobs.as_slice()[job.0 as usize].instance;
    u64::from(found) == instance
        && is_joined(name, object_name(program, job), method_name(program, job))
}

/// The job of a name and an instance. It takes time as there are jobs, and no memory.
pub fn find_job(program: &Program, name: &[u8], instance: u64) -> Option<JobId>
    ensures job { option_map (λ (job : JobId). job.0) result
        ≡ find_job name.now instance (map (job_name program.now.objects program.now.methods) program.now.jobs)
        program.now.jobs }
    ensures within { IfSome result (λ job. job.0 < length program.now.jobs) }
{
    for place in 0..program.jobs.len() {
        let job = JobId(place as u32);
        if is_job(program, job, name, instance) {
            return Some(job);
        }
    }
    None
}
