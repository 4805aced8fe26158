//! The lines of data record groups, and those of groups and events alike.

ghost use Rattle.std.specs.Prelude.{◌≡◌, IfOk, None, false, slice_get};
ghost use Rattle.trick_plan_draft.specs.Drafts.{asked, group_of, new_group};
ghost use Rattle.trick_plan_draft.specs.Lines.{Did, add_group_line, add_variable_line, is_full, new_group_line, set_changes_line, set_cycle_line, set_group_line, this_own_line};
ghost use Rattle.trick_plan_draft.specs.declared.group.GroupDraft.{GroupDraft};

use crate::group::{add_cell, set_changes, set_cycle, turn};
use crate::limits::{COLUMN_LIMIT, GROUP_LIMIT};
use crate::{Draft, GroupDraft, Handle, LineFault, event};
use std::alloc::{AllocError, Global};
use trick_base::{Items, Word};

// The tics of a group's cycle where no line says otherwise.
const DEFAULT_CYCLE: u64 = 100_000;

fn new_group(alloc: Global, name: &Word) -> Result<GroupDraft, AllocError>
    ensures { IfOk result (λ group. group ≡ new_group name.now) }
{
    Ok(GroupDraft {
        name: name.try_clone()?,
        cycle: DEFAULT_CYCLE,
        changes: false,
        cells: Items::new(alloc),
        on: true,
    })
}

// Whether a group has all the variables that it can have.
fn is_full(groups: &[GroupDraft], at: usize) -> bool
    ensures { result ≡ asked (λ (group : GroupDraft). is_full group.cells 256) false (slice_get groups.now at) }
{
    match groups.get(at) {
        Some(group) => group.cells.len() >= COLUMN_LIMIT,
        None => false,
    }
}

impl Draft {
    /// `v = trick.DRAscii("name")`: a variable stands for a new group, which begins on. A variable that
    /// is bound and a name that a group has are `TwiceNamed`.
    pub fn new_group(
        &mut self,
        alloc: Global,
        variable: &Word,
        name: &Word,
    ) -> Result<(), LineFault>
        ensures { Did result self.new (new_group_line variable.now name.now self.old) }
    {
        if self.variables.meaning(variable).is_some() || self.group_names.meaning(name).is_some() {
            return Err(LineFault::TwiceNamed);
        }
        let place = self.groups.len();
        let _was = self.variables.add(variable, Handle::Group(place))?;
        let _was = self.group_names.add(name, place)?;
        self.groups.push(new_group(alloc, name)?)?;
        Ok(())
    }

    /// `v.add_variable("PATH")`: a group records the cell of a full name. A variable that stands for no
    /// group and a name that is no cell's are `UnknownName`, and the 257th cell is `TooMany`.
    pub fn add_variable(
        &mut self,
        alloc: Global,
        variable: &Word,
        name: &Word,
    ) -> Result<(), LineFault>
        ensures { Did result self.new (add_variable_line variable.now name.now self.old) }
    {
        let Some(at) = self.group_of(variable) else {
            return Err(LineFault::UnknownName);
        };
        let Some(cell) = self.cells.names.meaning(name) else {
            return Err(LineFault::UnknownName);
        };
        if is_full(self.groups.as_slice(), at) {
            return Err(LineFault::TooMany {
                limit: COLUMN_LIMIT as u64,
            });
        }
        add_cell(alloc, &mut self.groups, at, cell)?;
        Ok(())
    }

    /// `v.enable()` and `v.disable()`: a group begins on or off. A variable that stands for no group
    /// is `UnknownName`.
    pub fn set_group(&mut self, alloc: Global, variable: &Word, on: bool) -> Result<(), LineFault>
        ensures { Did result self.new (set_group_line variable.now on self.old) }
    {
        let Some(at) = self.group_of(variable) else {
            return Err(LineFault::UnknownName);
        };
        turn(alloc, &mut self.groups, at, on);
        Ok(())
    }

    /// `v.freq = trick.DR_Always` and `v.freq = trick.DR_Changes`: whether a group records changes
    /// alone. A variable that stands for no group is `UnknownName`.
    pub fn set_changes(
        &mut self,
        alloc: Global,
        variable: &Word,
        changes: bool,
    ) -> Result<(), LineFault>
        ensures { Did result self.new (set_changes_line variable.now changes self.old) }
    {
        let Some(at) = self.group_of(variable) else {
            return Err(LineFault::UnknownName);
        };
        set_changes(alloc, &mut self.groups, at, changes);
        Ok(())
    }

    /// `trick.add_data_record_group(v)`: adds a group. A variable that stands for no group is
    /// `UnknownName`, a group that is added already `TwiceNamed`, and the 65th group `TooMany`.
    pub fn add_group(&mut self, variable: &Word) -> Result<(), LineFault>
        ensures { Did result self.new (add_group_line variable.now self.old) }
    {
        let Some(at) = self.group_of(variable) else {
            return Err(LineFault::UnknownName);
        };
        let name = &self.groups.as_slice()[at].name;
        if self.added_groups.meaning(name).is_some() {
            return Err(LineFault::TwiceNamed);
        }
        if self.added_groups.len() >= GROUP_LIMIT {
            return Err(LineFault::TooMany {
                limit: GROUP_LIMIT as u64,
            });
        }
        let _was = self.added_groups.add(name, at)?;
        Ok(())
    }

    // The cycle of an event.
    fn set_cycle_of_event(
        &mut self,
        alloc: Global,
        variable: &Word,
        tics: u64,
    ) -> Result<(), LineFault>
        requires { group_of self.old variable.now ≡ None }
        ensures { Did result self.new (set_cycle_line variable.now tics self.old) }
    {
        let Some(at) = self.event_of(variable) else {
            return Err(LineFault::UnknownName);
        };
        if tics == 0 {
            return Err(LineFault::OutOfRange);
        }
        event::set_cycle(alloc, &mut self.events, at, tics);
        Ok(())
    }

    /// `v.set_cycle(TIME)`: the cycle of a group or an event, in tics. A variable that is not bound is
    /// `UnknownName`, and 0 tics are `OutOfRange`.
    pub fn set_cycle(&mut self, alloc: Global, variable: &Word, tics: u64) -> Result<(), LineFault>
        ensures { Did result self.new (set_cycle_line variable.now tics self.old) }
    {
        let Some(at) = self.group_of(variable) else {
            return self.set_cycle_of_event(alloc, variable, tics);
        };
        if tics == 0 {
            return Err(LineFault::OutOfRange);
        }
        set_cycle(alloc, &mut self.groups, at, tics);
        Ok(())
    }

    /// `v.thisown = LIT`, which changes nothing. A variable that is not bound is `UnknownName`.
    pub fn this_own(&mut self, variable: &Word) -> Result<(), LineFault>
        ensures { Did result self.new (this_own_line variable.now self.old) }
    {
        if self.group_of(variable).is_none() && self.event_of(variable).is_none() {
            return Err(LineFault::UnknownName);
        }
        Ok(())
    }
}
