ghost use Rattle.std.specs.Prelude.{◌≡◌, ◌++◌, Some, false, is_ok, if◌then◌else◌};
ghost use Rattle.trick_plan_variables.specs.Cells.{Adds, DeclaresIn, KeepsPlan, KeepsRest, added, is_taken};

use crate::cells::{cells_of, total};
use crate::{DeclareFault, SpelledDeclaration, is_taken};
use std::alloc::{AllocError, Global};
use std::mem;
use trick_base::{CELL_LIMIT, Items};
use trick_lang::{Program, Variable};
use trick_model::Plan;

// Adds cells at the end. A want of memory leaves the cells as they were.
fn append(alloc: Global, cells: &mut Items<Variable>, more: Vec<Variable>) -> Result<(), AllocError>
    ensures { cells.new ≡ (if is_ok result then cells.old ++ more.items else cells.old) }
{
    let mut more = more;
    let mut all = mem::replace(cells, Items::new(alloc)).into_vec();
    let done = all.append(&mut more);
    *cells = Items::from_vec(all);
    done
}

/// Adds the cells of a declaration to a program, last. The name of the declaration is free.
pub fn add(
    alloc: Global,
    program: &mut Program,
    known: &SpelledDeclaration,
) -> Result<(), DeclareFault>
    requires free { is_taken known.now.declaration.name program.old.objects program.old.cells ≡ false }
    ensures cells { Adds (added program.old.objects program.old.cells (Some known.now.declaration)) result
        program.old.cells program.new.cells }
    ensures rest { KeepsRest program.old program.new }
{
    let declaration = &known.declaration;
    let count = total(declaration.lengths.as_slice(), program.cells.as_slice());
    if count > CELL_LIMIT {
        return Err(DeclareFault::TooManyCells { count });
    }
    let more = cells_of(alloc, declaration)?;
    append(alloc, &mut program.cells, more)?;
    Ok(())
}

/// Adds the variable that a text declares to a plan: its cells are the last ones. A text that is no
/// declaration, a name that is taken and a variable with too many cells are refused in this order, and
/// leave the plan as it was. FORMATS.md has the form of a declaration.
pub fn declare(alloc: Global, plan: &mut Plan, text: &[u8]) -> Result<(), DeclareFault>
    ensures cells { DeclaresIn text.now result plan.old.program plan.new.program }
    ensures rest { KeepsPlan plan.old plan.new }
{
    let Some(known) = SpelledDeclaration::read(alloc, text)? else {
        return Err(DeclareFault::BadDeclaration);
    };
    let program = &mut plan.program;
    let (objects, cells) = (program.objects.as_slice(), program.cells.as_slice());
    if is_taken(known.declaration.name.as_slice(), objects, cells) {
        return Err(DeclareFault::Taken);
    }
    add(alloc, program, &known)
}
