// The cells of a job, of one way, as ranges in order. One pass over the
// blocks, from the job's down, finds each block that the job reaches once; what these read or write
// themselves is noted by cell. Pages of blocks that the job does not reach are passed in one step each.

ghost use Rattle.std.specs.Prelude.{◌≡◌, ◌||◌, ◌<◌, IfOk, false, length, replicate, ℕ};
ghost use Rattle.trick_access.specs.Ranges.{AreCellsOf};
ghost use Rattle.trick_lang.specs.Access.{is_in};
ghost use Rattle.trick_lang.specs.Effect.{base_of, body_of};
ghost use Rattle.trick_access.specs.Reached.{block_cells, is_reached};
ghost use Rattle.trick_lang.specs.TreeOf.{codes_of};

mod ends;
mod marks;
mod note;
mod pages;
pub(crate) mod way;

use crate::job_body::{base, body};
use crate::reach::ends::Ends;
use crate::reach::marks::mark_statements;
use crate::reach::note::note_statements;
use crate::reach::pages::Marks;
use crate::reach::way::Way;
use std::alloc::{AllocError, Global};
use trick_base::Items;
use trick_lang::{CellRange, JobId, Program};

// Notes the cells of a block and of all blocks that it reaches.
fn note_reached(
    way: Way,
    program: &Program,
    base: u32,
    block: usize,
    ends: &mut Ends,
    marks: &mut Marks,
)
    requires block { block < length program.now.blocks }
    requires marks { marks.old ≡ replicate (length program.now.blocks) false }
    ensures reached { (c : ℕ) → c < length ends.old →
        is_reached ends.new c ≡ (is_in (block_cells way base (codes_of program.now.blocks) block) c
        || is_reached ends.old c) }
    ensures length { length ends.new ≡ length ends.old }
{
    let blocks = program.blocks.as_slice();
    marks.mark(block);
    let mut left = block + 1;
    while let Some(marked) = marks.last_below(left) {
        left = marked;
        let statements = blocks[left].statements.as_slice();
        note_statements(way, statements, base, ends);
        mark_statements(statements, marks);
    }
}

// The cells of a job, of one way.
pub(crate) fn cells_of(
    alloc: Global,
    program: &Program,
    job: JobId,
    way: Way,
) -> Result<Items<CellRange>, AllocError>
    requires { job.0 < length program.now.jobs }
    ensures { IfOk result (λ ranges. AreCellsOf (length program.now.cells)
        (block_cells way (base_of program.now job) (codes_of program.now.blocks) (body_of program.now job)) ranges) }
{
    let base = base(program, job);
    let block = body(program, job);
    let mut ends = Ends::new(alloc, program.cells.len())?;
    let mut marks = Marks::new(alloc, program.blocks.len())?;
    note_reached(way, program, base, block, &mut ends, &mut marks);
    ends.into_ranges(alloc)
}
