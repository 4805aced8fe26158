//! The draft, and what variables stand for in it.

ghost use Rattle.std.specs.Prelude.{◌≡◌, ◌<◌, [], IfOk, IfSome, length, replicate, true};
ghost use Rattle.trick_plan_draft.specs.Drafts.{begun, event_of, group_of, with_items};

use crate::{EventDraft, GroupDraft, Handle, KnownCells};
use std::alloc::{AllocError, Global};
use trick_base::{Items, Word};
use trick_check_names::Names;
use trick_lang::{Cell, EnumItem, Program};
use trick_model::{Depends, Flags, ReadAt};

/// What the lines of an input so far have said. Groups and events go by their places, from 0 in the
/// order of the lines that bind them to a variable.
#[derive(Drop)]
pub struct Draft {
    pub cells: KnownCells,
    /// The items of enums with their values.
    pub items: Names<i32>,
    pub variables: Names<Handle>,
    /// The names of all groups, with their places.
    pub group_names: Names<usize>,
    /// The names of all events, with their places.
    pub event_names: Names<usize>,
    pub groups: Items<GroupDraft>,
    pub events: Items<EventDraft>,
    /// The names of the groups that are added, in this order, with their places.
    pub added_groups: Names<usize>,
    /// The names of the events that are added, in this order, with their places.
    pub added_events: Names<usize>,
    /// In the order of their lines.
    pub depends: Items<Depends>,
    /// In the order of their lines.
    pub reads: Items<ReadAt>,
    /// In the order of their lines.
    pub assigns: Items<(Cell, i64)>,
    /// Whether each job begins on.
    pub jobs: Flags,
}

fn items_of(alloc: Global, items: &[EnumItem]) -> Result<Names<i32>, AllocError>
    ensures { IfOk result (λ names. names ≡ with_items items.now []) }
{
    let mut names = Names::new(alloc);
    for item in items {
        let _was = names.add(&item.name, item.value)?;
    }
    Ok(names)
}

// So many flags, all on.
fn all_on(alloc: Global, count: usize) -> Result<Flags, AllocError>
    ensures { IfOk result (λ flags. flags.on ≡ replicate count true) }
{
    let on = vec![in alloc; true; count]?;
    Ok(Flags {
        on: Items::from_vec(on),
    })
}

impl Draft {
    /// The draft before the first line: all jobs are on, and nothing is said.
    pub fn new(alloc: Global, program: &Program) -> Result<Self, AllocError>
        ensures { IfOk result (λ draft. draft ≡ begun program.now) }
    {
        let cells = KnownCells::of(alloc, program)?;
        let items = items_of(alloc, program.items.as_slice())?;
        let jobs = all_on(alloc, program.jobs.len())?;
        Ok(Draft {
            cells,
            items,
            variables: Names::new(alloc),
            group_names: Names::new(alloc),
            event_names: Names::new(alloc),
            groups: Items::new(alloc),
            events: Items::new(alloc),
            added_groups: Names::new(alloc),
            added_events: Names::new(alloc),
            depends: Items::new(alloc),
            reads: Items::new(alloc),
            assigns: Items::new(alloc),
            jobs,
        })
    }

    // The group that a variable stands for, by its place.
    pub(crate) fn group_of(&self, variable: &Word) -> Option<usize>
        ensures group { result ≡ group_of self.now variable.now }
        ensures within { IfSome result (λ place. place < length self.now.groups) }
    {
        match self.variables.meaning(variable) {
            Some(Handle::Group(place)) if place < self.groups.len() => Some(place),
            _ => None,
        }
    }

    // The event that a variable stands for, by its place.
    pub(crate) fn event_of(&self, variable: &Word) -> Option<usize>
        ensures event { result ≡ event_of self.now variable.now }
        ensures within { IfSome result (λ place. place < length self.now.events) }
    {
        match self.variables.meaning(variable) {
            Some(Handle::Event(place)) if place < self.events.len() => Some(place),
            _ => None,
        }
    }
}
