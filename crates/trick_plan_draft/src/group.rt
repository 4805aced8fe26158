//! Data record groups, and their changes one by one.

ghost use Rattle.std.specs.Prelude.{◌≡◌, ◌<◌, ◌++◌, ◌∷◌, [], OnOk, length};
ghost use Rattle.trick_plan_draft.specs.Changed.{changed};
ghost use Rattle.trick_plan_draft.specs.declared.group.GroupDraft.{GroupDraft};

use std::alloc::{AllocError, Global};
use std::mem;
use trick_base::{Items, Word};
use trick_lang::Cell;

/// A data record group, as the lines so far have made it.
#[derive(Drop)]
pub struct GroupDraft {
    pub name: Word,
    /// In tics; 100,000 where no line says otherwise.
    pub cycle: u64,
    /// Whether a row is written only where it differs from the last one.
    pub changes: bool,
    /// In the order of their lines, at most 256.
    pub cells: Items<Cell>,
    /// Whether the group begins on.
    pub on: bool,
}

// Gives a group a cycle.
pub(crate) fn set_cycle(alloc: Global, groups: &mut Items<GroupDraft>, at: usize, tics: u64)
    requires { at < length groups.old }
    ensures { groups.new ≡ changed (λ (group : GroupDraft). record group { cycle = tics }) groups.old at }
{
    let mut all = mem::replace(groups, Items::new(alloc)).into_vec();
    all[at].cycle = tics;
    *groups = Items::from_vec(all);
}

// Tells whether a group records changes alone.
pub(crate) fn set_changes(alloc: Global, groups: &mut Items<GroupDraft>, at: usize, changes: bool)
    requires { at < length groups.old }
    ensures { groups.new ≡ changed (λ (group : GroupDraft). record group { changes = changes }) groups.old at }
{
    let mut all = mem::replace(groups, Items::new(alloc)).into_vec();
    all[at].changes = changes;
    *groups = Items::from_vec(all);
}

// Turns a group on or off.
pub(crate) fn turn(alloc: Global, groups: &mut Items<GroupDraft>, at: usize, on: bool)
    requires { at < length groups.old }
    ensures { groups.new ≡ changed (λ (group : GroupDraft). record group { on = on }) groups.old at }
{
    let mut all = mem::replace(groups, Items::new(alloc)).into_vec();
    all[at].on = on;
    *groups = Items::from_vec(all);
}

// Adds a cell to a group.
pub(crate) fn add_cell(
    alloc: Global,
    groups: &mut Items<GroupDraft>,
    at: usize,
    cell: Cell,
) -> Result<(), AllocError>
    requires { at < length groups.old }
    ensures { OnOk result (groups.new
        ≡ changed (λ (group : GroupDraft). record group { cells = group.cells ++ cell ∷ [] }) groups.old at) }
{
    let mut all = mem::replace(groups, Items::new(alloc)).into_vec();
    all[at].cells.push(cell)?;
    *groups = Items::from_vec(all);
    Ok(())
}
