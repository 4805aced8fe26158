//! How many cells and jobs there are.

ghost use Rattle.std.specs.Prelude.{◌≡◌, ◌≤◌, ◌<◌, IfErr, IfNone, IfOk, IfSome, OnOk, length};
ghost use Rattle.trick_base.specs.Capped.{capped};
ghost use Rattle.trick_check_cells.specs.Cells.{all_groups, memory_cells};
ghost use Rattle.trick_check_cells.specs.Counts.{counts, names_count};
ghost use Rattle.trick_check.specs.Refused.{CallsAreRight, IsRefused, JobsAreRight};
ghost use Rattle.trick_check.specs.Walk.{objects_of, sizes_of};
ghost use Rattle.trick_check_bodies.specs.Jobs.{job_count};
ghost use Rattle.trick_lang.specs.Syntax.{definitions_of};
ghost use Rattle.trick_check_names.specs.Tables.{tables_of};

use crate::CheckFault;
use std::alloc::Global as Memory;
use trick_base::{CELL_LIMIT, Items};
use trick_check_bodies::job_count;
use trick_check_cells::{cell_count, laws, objects, sizes};
use trick_check_names::Tables;
use trick_lang::Object;
use trick_lang::syntax::Definition;

/// The most jobs that a simulation has.
const JOB_LIMIT: u64 = 512;

/// How many cells each struct and class has, and the objects.
#[derive(Drop)]
pub struct Counted {
    /// By the number of the definition.
    pub sizes: Vec<u64>,
    pub objects: Items<Object>,
}

// How many cells there are, where they are too many.
fn too_many_cells(sizes: &[u64], tables: &Tables) -> Option<u64>
    requires sizes { sizes.now ≡ counts (all_groups tables.now) }
    ensures fit { IfNone result (length (memory_cells tables.now) ≤ 65536) }
    ensures many { IfSome result (λ count. 65536 < length (memory_cells tables.now)) }
    ensures count { IfSome result (λ count. count ≡ capped (length (memory_cells tables.now))) }
{
    laws::count_law();
    let count = cell_count(sizes, &tables.names);
    if count > CELL_LIMIT {
        Some(count)
    } else {
        None
    }
}

// How many jobs there are, where they are too many.
fn too_many_jobs(definitions: &[Definition], objects: &[Object]) -> Option<u64>
    ensures fit { IfNone result (job_count (definitions_of definitions.now) objects.now ≤ 512) }
    ensures many { IfSome result (λ count. 512 < job_count (definitions_of definitions.now) objects.now) }
    ensures count { IfSome result (λ count. count ≡ capped (job_count (definitions_of definitions.now) objects.now)) }
{
    let count = job_count(definitions, objects);
    if count > JOB_LIMIT { Some(count) } else { None }
}

/// Counts the cells and the jobs. Nothing that is counted is made or walked.
pub fn count(
    alloc: Memory,
    definitions: &[Definition],
    tables: &Tables,
) -> Result<Counted, CheckFault>
    requires tables { tables.now ≡ tables_of (definitions_of definitions.now) }
    requires right { CallsAreRight (definitions_of definitions.now) }
    ensures sizes { IfOk result (λ counted. counted.sizes.items ≡ sizes_of (definitions_of definitions.now)) }
    ensures objects { IfOk result (λ counted. counted.objects ≡ objects_of (definitions_of definitions.now)) }
    ensures right { OnOk result (JobsAreRight (definitions_of definitions.now)) }
    ensures refused { IfErr result (λ fault. IsRefused (definitions_of definitions.now) fault) }
{
    let sizes = sizes(alloc, tables.groups.as_slice())?;
    if let Some(count) = too_many_cells(&sizes, tables) {
        return Err(CheckFault::TooManyCells { count });
    }
    let objects = objects(alloc, &sizes, &tables.names)?;
    if let Some(count) = too_many_jobs(definitions, objects.as_slice()) {
        return Err(CheckFault::TooManyJobs { count });
    }
    Ok(Counted { sizes, objects })
}
