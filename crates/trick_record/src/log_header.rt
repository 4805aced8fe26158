//! The header of a log.

ghost use Rattle.std.specs.Prelude.{◌≡◌, ◌<◌, ◌++◌, IfOk, codes, length, map};
ghost use Rattle.trick_lang.specs.declared.cells.Cell.{Cell};
ghost use Rattle.trick_model.specs.NameAt.{cell_name};
ghost use Rattle.trick_model.specs.PlanOf.{plan_of};
ghost use Rattle.trick_model.specs.Records.{fields, header as header_text};
ghost use Rattle.trick_record.specs.Added.{group_at};

use crate::fields::{first, last, line_writer, lines_of, put};
use crate::group_of::group_of;
use std::alloc::{AllocError, Global};
use trick_lang::{Cell, Program};
use trick_model::{Plan, cell_name};

// `tic` and the full names of these cells.
pub(crate) fn header_of(
    alloc: Global,
    program: &Program,
    cells: &[Cell],
) -> Result<Vec<u8>, AllocError>
    ensures { IfOk result (λ text. text.items ≡ codes "tic" ++
        fields (map (λ (cell : Cell). cell_name program.now.cells cell.0) cells.now)) }
{
    let mut writer = line_writer(Vec::new(alloc));
    first(&mut writer, b"tic")?;
    for cell in cells {
        put(&mut writer, cell_name(program, *cell))?;
    }
    last(&mut writer)?;
    lines_of(writer)
}

/// The first line of a group's log: `tic`, and the full names of the variables that the group
/// records. `group` is the number of a group of the plan. `docs/FORMATS.md` has its form. The only
/// refusal is for want of memory.
pub fn header(alloc: Global, plan: &Plan, group: u32) -> Result<Vec<u8>, AllocError>
    requires group { group < length plan.now.groups }
    ensures text { IfOk result (λ text. text.items ≡ header_text (plan_of plan.now) (group_at plan.now.groups group)) }
{
    let group = group_of(plan, group);
    header_of(alloc, &plan.program, group.cells.as_slice())
}
