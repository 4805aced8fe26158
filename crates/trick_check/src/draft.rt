//! The parts of a program, and how they are joined.

ghost use Rattle.trick_check.specs.Draft.{IsJoined, IsProper, IsWhole};

use trick_base::Items;
use trick_check_blocks::{ClassScope, laws};
use trick_check_bodies::Bodies;
use trick_check_names::Layout;
use trick_lang::{EnumItem, Job, Object, Program, Variable};

/// The parts of a program.
#[derive(Drop)]
pub struct ProgramDraft {
    pub cells: Items<Variable>,
    pub items: Items<EnumItem>,
    pub objects: Items<Object>,
    pub bodies: Bodies,
    pub jobs: Items<Job>,
}

/// Joins the parts.
pub fn join(draft: ProgramDraft) -> Program
    requires whole { IsWhole draft }
    requires proper { IsProper draft }
    ensures { IsJoined draft result }
{
    laws::blocks_law();
    laws::program_law();
    let ProgramDraft {
        cells,
        items,
        objects,
        bodies,
        jobs,
    } = draft;
    let Bodies {
        scope,
        blocks,
        methods,
        numbers: _,
    } = bodies;
    let ClassScope {
        layout,
        class: _,
        methods: _,
        slots,
    } = scope;
    let Layout {
        groups: _,
        sizes,
        sites: _,
        cells: _,
    } = layout;
    Program {
        cells,
        items,
        sizes,
        objects,
        blocks: Items::from_vec(blocks),
        methods,
        jobs,
        slots,
    }
}
