//! What actions ask for, given the lines so far.

ghost use Rattle.std.specs.Prelude.{◌≡◌, IfOk, Some};
ghost use Rattle.trick_plan_draft.specs.Cells.{AreNumbered, only_names};
ghost use Rattle.trick_plan_draft.specs.Drafts.{names_of};
ghost use Rattle.trick_plan_draft.specs.Jobs.{jobs_of};
ghost use Rattle.trick_plan_draft.specs.Lines.{deeds_in};
ghost use Rattle.trick_model.specs.Names.{deed_of, deeds_of, find_name, set_in_range};

use crate::{Draft, KnownCells};
use std::alloc::{AllocError, Global};
use trick_base::{Items, Word};
use trick_check_names::Names;
use trick_lang::{Cell, Program};
use trick_model::{Action, Deed};
use trick_plan_deeds::{find_job, stop};

impl KnownCells {
    // A cell gets a number, if that is in its range.
    fn set_number(&self, cell: Cell, number: i128) -> Option<Deed>
        ensures { result ≡ set_in_range self.now.scalars number (Some cell.0) }
    {
        let number = self.fitting(cell, number)?;
        Some(Deed::SetCell { cell, number })
    }

    // A cell of this name gets a number, if that is in its range.
    fn set_cell(&self, name: &Word, number: i128) -> Option<Deed>
        requires { AreNumbered self.now }
        ensures { result ≡ set_in_range self.now.scalars number (find_name name.now (only_names self.now.names)) }
    {
        match self.names.meaning(name) {
            Some(cell) => self.set_number(cell, number),
            None => None,
        }
    }
}

// The place of a name among those that are known.
fn place_of(names: &Names<usize>, name: &Word) -> Option<usize>
    ensures { result ≡ find_name name.now (only_names names.now) }
{
    for place in 0..names.len() {
        let (known, _) = names.entry(place);
        if name.as_slice() == known {
            return Some(place);
        }
    }
    None
}

impl Draft {
    // What an action asks for, if that can be done.
    fn deed_of(&self, program: &Program, action: &Action) -> Option<Deed>
        requires { AreNumbered self.now.cells }
        ensures { result ≡ deed_of (names_of (jobs_of program.now) self.now) action.now }
    {
        match action {
            Action::SetCell { name, number } => self.cells.set_cell(name, *number),
            Action::SetJob { name, instance, on } => {
                let job = find_job(program, name.as_slice(), *instance)?;
                Some(Deed::SetJob { job, on: *on })
            }
            Action::Freeze => Some(Deed::Freeze),
            Action::Stop { at } => stop(*at),
            Action::Checkpoint => Some(Deed::Checkpoint),
            Action::SetGroup { name, on } => {
                let group = place_of(&self.added_groups, name)?;
                Some(Deed::SetGroup { group, on: *on })
            }
            Action::SetEvent { name, on } => {
                let event = place_of(&self.added_events, name)?;
                Some(Deed::SetEvent { event, on: *on })
            }
        }
    }

    // What actions ask for, if all of that can be done.
    fn deeds_of(
        &self,
        alloc: Global,
        program: &Program,
        actions: &[Action],
    ) -> Result<Option<Items<Deed>>, AllocError>
        requires { AreNumbered self.now.cells }
        ensures { IfOk result (λ deeds. deeds ≡ deeds_of (names_of (jobs_of program.now) self.now) actions.now) }
    {
        let mut deeds = Items::new(alloc);
        for action in actions {
            let Some(deed) = self.deed_of(program, action) else {
                return Ok(None);
            };
            deeds.push(deed)?;
        }
        Ok(Some(deeds))
    }

    // What the actions of a line ask for, if they read and all of that can be done.
    pub(crate) fn deeds_in(
        &self,
        alloc: Global,
        program: &Program,
        actions: Option<Items<Action>>,
    ) -> Result<Option<Items<Deed>>, AllocError>
        requires { AreNumbered self.now.cells }
        ensures { IfOk result (λ deeds. deeds ≡ deeds_in (jobs_of program.now) self.now actions) }
    {
        match actions {
            Some(actions) => self.deeds_of(alloc, program, actions.as_slice()),
            None => Ok(None),
        }
    }
}
