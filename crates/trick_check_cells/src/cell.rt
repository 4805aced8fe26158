//! Writes the cells of objects, without recursion: what is not yet written waits on a stack.

ghost use Rattle.std.specs.Prelude.{◌≡◌, ◌++◌, IfOk, OnOk};
ghost use Rattle.trick_check_cells.specs.Cells.{cells_at, global_cells, objects_cells, under};
ghost use Rattle.trick_check_cells.specs.Counts.{counts};
ghost use Rattle.trick_check_cells.specs.Unfolding.{Unfolds};
ghost use Rattle.trick_check_cells.specs.Waits.{IsDone, stack_cells, waiting_cells};
ghost use Rattle.trick_check_cells.specs.declared.cell.Waiting.TheVariants.{Place, Elements, Members};

use crate::name::{with_index, with_member};
use crate::size::base_size;
use std::alloc::{AllocError, Global as Memory};
use trick_base::{Items, Word};
use trick_check_names::{Base, Global, Lengths, Member, Names, Tables};
use trick_lang::Variable;

/// What is to be written, under the name of what it belongs to.
#[derive(Drop)]
pub enum Waiting {
    /// What a place reaches.
    Place {
        prefix: Word,
        lengths: Lengths,
        base: Base,
    },
    /// The elements of an array from one on.
    Elements {
        prefix: Word,
        from: u64,
        length: u64,
        lengths: Lengths,
        base: Base,
    },
    /// The members of a struct or class from one on.
    Members {
        prefix: Word,
        group: usize,
        from: usize,
    },
}

// Takes apart the members of a struct or class from one on.
fn expand_members(
    groups: &[Names<Member>],
    prefix: Word,
    group: usize,
    from: usize,
    stack: &mut Vec<Waiting>,
) -> Result<(), AllocError>
    ensures { OnOk result ((done : _) → stack_cells groups.now done stack.new.items
        ≡ waiting_cells groups.now done (Members prefix group from) ++ stack_cells groups.now done stack.old.items) }
{
    if group >= groups.len() {
        return Ok(());
    }
    let members = &groups[group];
    if from >= members.len() {
        return Ok(());
    }
    let (name, member) = members.entry(from);
    let whole = with_member(&prefix, name)?;
    stack.push(Waiting::Members {
        prefix,
        group,
        from: from + 1,
    })?;
    if let Member::Variable(shape) = member {
        stack.push(Waiting::Place {
            prefix: whole,
            lengths: shape.lengths,
            base: shape.base,
        })?;
    }
    Ok(())
}

// Takes apart the elements of an array from one on.
fn expand_elements(
    prefix: Word,
    from: u64,
    length: u64,
    lengths: Lengths,
    base: Base,
    stack: &mut Vec<Waiting>,
) -> Result<(), AllocError>
    ensures { OnOk result ((groups : _) (done : _) → stack_cells groups done stack.new.items
        ≡ waiting_cells groups done (Elements prefix from length lengths base)
        ++ stack_cells groups done stack.old.items) }
{
    if from >= length {
        return Ok(());
    }
    let name = with_index(&prefix, from)?;
    stack.push(Waiting::Elements {
        prefix,
        from: from + 1,
        length,
        lengths,
        base,
    })?;
    stack.push(Waiting::Place {
        prefix: name,
        lengths,
        base,
    })?;
    Ok(())
}

// Writes a number, and takes apart what is none.
fn expand_place(
    prefix: Word,
    lengths: Lengths,
    base: Base,
    stack: &mut Vec<Waiting>,
    cells: &mut Items<Variable>,
) -> Result<(), AllocError>
    ensures { OnOk result ((groups : _) (done : _) → Unfolds groups done →
        cells.new ++ stack_cells groups done stack.new.items
        ≡ cells.old ++ (waiting_cells groups done (Place prefix lengths base)
        ++ stack_cells groups done stack.old.items)) }
{
    match lengths {
        Lengths::Plain => match base {
            Base::Single(scalar) => cells.push(Variable {
                name: prefix,
                scalar,
            })?,
            Base::Group(group) => stack.push(Waiting::Members {
                prefix,
                group,
                from: 0,
            })?,
        },
        Lengths::One(n) => stack.push(Waiting::Elements {
            prefix,
            from: 0,
            length: n,
            lengths: Lengths::Plain,
            base,
        })?,
        Lengths::Two(m, n) => stack.push(Waiting::Elements {
            prefix,
            from: 0,
            length: m,
            lengths: Lengths::One(n),
            base,
        })?,
    }
    Ok(())
}

// One step with what waits. What has no cells is left out, however many elements it has.
fn expand(
    sizes: &[u64],
    groups: &[Names<Member>],
    waiting: Waiting,
    stack: &mut Vec<Waiting>,
    cells: &mut Items<Variable>,
) -> Result<(), AllocError>
    ensures { OnOk result ((done : _) → IsDone groups.now sizes.now done →
        cells.new ++ stack_cells groups.now done stack.new.items
        ≡ cells.old ++ (waiting_cells groups.now done waiting ++ stack_cells groups.now done stack.old.items)) }
{
    match waiting {
        Waiting::Place {
            prefix,
            lengths,
            base,
        } => {
            if base_size(sizes, base) == 0 {
                return Ok(());
            }
            expand_place(prefix, lengths, base, stack, cells)
        }
        Waiting::Elements {
            prefix,
            from,
            length,
            lengths,
            base,
        } => expand_elements(prefix, from, length, lengths, base, stack),
        Waiting::Members {
            prefix,
            group,
            from,
        } => expand_members(groups, prefix, group, from, stack),
    }
}

// Adds the cells of an object of a class.
fn add_object(
    alloc: Memory,
    sizes: &[u64],
    groups: &[Names<Member>],
    name: &[u8],
    class: usize,
    cells: &mut Items<Variable>,
) -> Result<(), AllocError>
    ensures { OnOk result ((done : _) → IsDone groups.now sizes.now done →
        cells.new ≡ cells.old ++ under name.now (cells_at done class)) }
{
    let mut stack = Vec::new(alloc);
    stack.push(Waiting::Members {
        prefix: Word::from_bytes(alloc, name)?,
        group: class,
        from: 0,
    })?;
    for _turn in 0..u64::MAX {
        match stack.pop() {
            None => return Ok(()),
            Some(waiting) => expand(sizes, groups, waiting, &mut stack, cells)?,
        }
    }
    Err(AllocError)
}

// Adds the cells of what a name of the file stands for, which are those of an object.
fn add_global(
    alloc: Memory,
    sizes: &[u64],
    groups: &[Names<Member>],
    name: &[u8],
    global: Global,
    cells: &mut Items<Variable>,
) -> Result<(), AllocError>
    ensures { OnOk result ((done : _) → IsDone groups.now sizes.now done →
        cells.new ≡ cells.old ++ under name.now (global_cells done global)) }
{
    match global {
        Global::Object(Base::Group(class)) => add_object(alloc, sizes, groups, name, class, cells),
        _ => Ok(()),
    }
}

/// All cells, in order, with their full names, where these are the counts of each struct and class.
/// It takes time and memory as the cells that there are.
pub fn cells(alloc: Memory, sizes: &[u64], tables: &Tables) -> Result<Items<Variable>, AllocError>
    ensures { IfOk result (λ cells. (done : _) → IsDone tables.now.groups sizes.now done →
        cells ≡ objects_cells done tables.now.names) }
{
    let groups = tables.groups.as_slice();
    let mut cells = Items::new(alloc);
    for place in 0..tables.names.len() {
        let (name, global) = tables.names.entry(place);
        add_global(alloc, sizes, groups, name, global, &mut cells)?;
    }
    Ok(cells)
}
