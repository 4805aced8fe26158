//! Reading the lines of cells and flags.

ghost use Rattle.std.specs.Prelude.{◌≡◌, ◌++◌, IfOk, codes, length};
ghost use Rattle.trick_chkpt_lines.specs.CheckpointLines.{cells_of, flag_line, flags_of, job_flags_of, memory_of};
ghost use Rattle.trick_chkpt_lines.specs.Ranges.{full_name, range_at as range_at_of, range_of as range_of_type};
ghost use Rattle.trick_codes.specs.Gives.{beside, Gives};
ghost use Rattle.trick_codes.specs.Lines.{read_lines};
ghost use Rattle.trick_codes.specs.Named.{indexed, integer_line as integer_line_of};
ghost use Rattle.trick_lang.specs.Effect.{scalars_of};
ghost use Rattle.trick_lang.specs.Wrap.{IsOf};

use crate::ranges::{range_at, range_of};
use std::alloc::Global;
use trick_base::Items;
use trick_codes::{LineStop, integer_line, number_line, set_indexed};
use trick_lang::{Cell, Cells, JobId, Variable};
use trick_model::{Flags, Plan, cell_name};

// Reads the line of a cell.
#[tactic(auto, using(crate::proofs::Within::of_type))]
fn read_variable<'a>(variable: &Variable, rest: &'a [u8]) -> Result<(i64, &'a [u8]), LineStop<'a>>
    ensures told { Gives beside result
        (read_lines (integer_line_of variable.now.name (range_of_type variable.now.scalar)) rest.now) }
    ensures range { IfOk result (λ x. IsOf variable.now.scalar x.0) }
{
    integer_line(variable.name.as_slice(), range_of(variable.scalar), rest)
}

/// Reads the lines of all cells, and sets each as it is read.
#[tactic(auto, unfolding(crate::specs::CheckpointLines::memory_of))]
pub fn read_memory<'a, M: Cells + Drop>(
    plan: &Plan,
    mut memory: M,
    rest: &'a [u8],
) -> Result<(M, &'a [u8]), LineStop<'a>>
    requires { M.scalars memory ≡ scalars_of plan.now.program.cells }
    ensures told { Gives (λ x. (M.numbers x.0, x.1.now)) result (read_lines (memory_of plan.now) rest.now) }
    ensures scalars { IfOk result (λ x. M.scalars x.0 ≡ scalars_of plan.now.program.cells) }
{
    let cells = plan.program.cells.as_slice();
    let count = memory.len() as usize;
    let mut here = rest;
    for i in 0..count {
        let (number, after) = read_variable(&cells[i], here)?;
        memory.set(Cell(i as u32), number);
        here = after;
    }
    Ok((memory, here))
}

// Reads the line of a cell, with this in front of its full name, which is written in place of `name`.
fn read_cell<'a>(
    name: &mut Vec<u8>,
    plan: &Plan,
    front: &[u8],
    cell: Cell,
    rest: &'a [u8],
) -> Result<(i64, &'a [u8]), LineStop<'a>>
    ensures { Gives beside result
        (read_lines (integer_line_of (front.now ++ full_name plan.now cell) (range_at_of plan.now cell)) rest.now) }
{
    name.clear();
    name.extend_from_slice(front)?;
    name.extend_from_slice(cell_name(&plan.program, cell))?;
    integer_line(name, range_at(plan, cell), rest)
}

/// Reads the lines of these cells, with this in front of each name.
#[tactic(auto, unfolding(crate::specs::CheckpointLines::cells_of))]
pub fn read_cells<'a>(
    alloc: Global,
    plan: &Plan,
    front: &[u8],
    cells: &[Cell],
    rest: &'a [u8],
) -> Result<(Items<i64>, &'a [u8]), LineStop<'a>>
    ensures { Gives beside result (read_lines (cells_of plan.now front.now cells.now) rest.now) }
{
    let mut found = Items::new(alloc);
    let mut name = Vec::new(alloc);
    let mut here = rest;
    for cell in cells {
        let (number, after) = read_cell(&mut name, plan, front, *cell, here)?;
        found.push(number)?;
        here = after;
    }
    Ok((found, here))
}

// Reads the line of a flag, by its index; the name is written in place of `name`.
#[tactic(auto, unfolding(crate::specs::CheckpointLines::flag_line))]
pub(crate) fn read_flag<'a>(
    name: &mut Vec<u8>,
    stem: &[u8],
    index: usize,
    rest: &'a [u8],
) -> Result<(bool, &'a [u8]), LineStop<'a>>
    ensures { Gives beside result (read_lines (flag_line (indexed stem.now index)) rest.now) }
{
    set_indexed(name, stem, index)?;
    let (number, rest) = number_line(name, 0, 1, rest)?;
    match number {
        0 => Ok((false, rest)),
        _ => Ok((true, rest)),
    }
}

// Reads a line for each of so many flags, by its index.
#[tactic(auto, using(trick_codes::proofs::Each::left), unfolding(crate::specs::CheckpointLines::flags_of))]
fn read_flags<'a>(
    alloc: Global,
    stem: &[u8],
    count: usize,
    rest: &'a [u8],
) -> Result<(Flags, &'a [u8]), LineStop<'a>>
    ensures { Gives (λ x. (x.0.on, x.1.now)) result (read_lines (flags_of stem.now count) rest.now) }
{
    let mut on = Items::new(alloc);
    let mut name = Vec::new(alloc);
    let mut here = rest;
    for index in 0..count {
        let (flag, after) = read_flag(&mut name, stem, index, here)?;
        on.push(flag)?;
        here = after;
    }
    Ok((Flags { on }, here))
}

/// Reads the flags of all jobs.
pub fn read_jobs<'a>(
    alloc: Global,
    plan: &Plan,
    rest: &'a [u8],
) -> Result<(Flags, &'a [u8]), LineStop<'a>>
    ensures { Gives (λ x. (x.0.on, x.1.now)) result
        (read_lines (flags_of (codes "job") (length plan.now.program.jobs)) rest.now) }
{
    read_flags(alloc, b"job", plan.program.jobs.len(), rest)
}

/// Reads the flags of all events.
pub fn read_events<'a>(
    alloc: Global,
    plan: &Plan,
    rest: &'a [u8],
) -> Result<(Flags, &'a [u8]), LineStop<'a>>
    ensures { Gives (λ x. (x.0.on, x.1.now)) result
        (read_lines (flags_of (codes "event") (length plan.now.events)) rest.now) }
{
    read_flags(alloc, b"event", plan.events.len(), rest)
}

/// Reads the lines of the flags of these jobs.
#[tactic(auto, unfolding(crate::specs::CheckpointLines::job_flags_of))]
pub fn read_job_flags<'a>(
    alloc: Global,
    stem: &[u8],
    jobs: &[JobId],
    rest: &'a [u8],
) -> Result<(Flags, &'a [u8]), LineStop<'a>>
    ensures { Gives (λ x. (x.0.on, x.1.now)) result (read_lines (job_flags_of stem.now jobs.now) rest.now) }
{
    let mut on = Items::new(alloc);
    let mut name = Vec::new(alloc);
    let mut here = rest;
    for job in jobs {
        let (flag, after) = read_flag(&mut name, stem, job.0 as usize, here)?;
        on.push(flag)?;
        here = after;
    }
    Ok((Flags { on }, here))
}
