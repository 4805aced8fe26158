//! Lines of cells and flags.

ghost use Rattle.std.specs.Prelude.{◌≡◌, ◌++◌, [], OnOk, map};
ghost use Rattle.trick_lang.specs.declared.cells.Cell.{Cell};
ghost use Rattle.trick_lang.specs.declared.job.JobId.{JobId};
ghost use Rattle.trick_model.specs.Checkpoint.{cell_lines, flag_lines};
ghost use Rattle.trick_model.specs.NameAt.{cell_name};
ghost use Rattle.trick_model.specs.Plan.{numbers_from};
ghost use Rattle.trick_model.specs.Valid.{cell_names};

use crate::line::{push_cell, push_flag};
use std::alloc::AllocError;
use trick_lang::{Cell, Cells, JobId, Program, Variable};
use trick_model::cell_name;

/// Appends the lines of all cells of a memory.
pub(crate) fn push_memory<M: Cells>(
    text: &mut Vec<u8>,
    variables: &[Variable],
    memory: &M,
) -> Result<(), AllocError>
    ensures { OnOk result (text.new.items ≡ text.old.items ++
        cell_lines [] (cell_names variables.now) (M.numbers memory.now)) }
{
    let count = variables.len().min(memory.len() as usize);
    for i in 0..count {
        push_cell(
            text,
            b"",
            variables[i].name.as_slice(),
            memory.get(Cell(i as u32)),
        )?;
    }
    Ok(())
}

/// Appends the lines of these cells and numbers, with this in front of each name.
pub(crate) fn push_cells(
    text: &mut Vec<u8>,
    front: &[u8],
    program: &Program,
    cells: &[Cell],
    numbers: &[i64],
) -> Result<(), AllocError>
    ensures { OnOk result (text.new.items ≡ text.old.items ++ cell_lines front.now
        (map (λ (cell : Cell). cell_name program.now.cells cell.0) cells.now) numbers.now) }
{
    for i in 0..cells.len().min(numbers.len()) {
        push_cell(text, front, cell_name(program, cells[i]), numbers[i])?;
    }
    Ok(())
}

/// Appends a line for each flag, by its index.
pub(crate) fn push_flags(text: &mut Vec<u8>, name: &[u8], flags: &[bool]) -> Result<(), AllocError>
    ensures { OnOk result (text.new.items ≡ text.old.items ++
        flag_lines name.now (numbers_from 0 flags.now) flags.now) }
{
    for (k, flag) in flags.iter().enumerate() {
        push_flag(text, name, k, *flag)?;
    }
    Ok(())
}

/// Appends the lines of the flags of these jobs.
pub(crate) fn push_job_flags(
    text: &mut Vec<u8>,
    name: &[u8],
    jobs: &[JobId],
    flags: &[bool],
) -> Result<(), AllocError>
    ensures { OnOk result (text.new.items ≡ text.old.items ++ flag_lines name.now
        (map (λ (job : JobId). job.0) jobs.now) flags.now) }
{
    for i in 0..jobs.len().min(flags.len()) {
        push_flag(text, name, jobs[i].0 as usize, flags[i])?;
    }
    Ok(())
}
