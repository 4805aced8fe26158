//! The lines of events.

ghost use Rattle.std.specs.Prelude.{◌≡◌, IfOk, false, is_some, slice_get};
ghost use Rattle.trick_plan_draft.specs.Cells.{AreNumbered};
ghost use Rattle.trick_plan_draft.specs.Drafts.{asked, new_event};
ghost use Rattle.trick_plan_draft.specs.Jobs.{jobs_of};
ghost use Rattle.trick_plan_draft.specs.Lines.{Did, activate_line, add_event_line, has_number, known_in, new_event_line, set_action_line, set_condition_line};
ghost use Rattle.trick_plan_draft.specs.Seen.{IsResolved, condition_in};
ghost use Rattle.trick_plan_draft.specs.declared.event.EventDraft.{EventDraft};
ghost use Rattle.trick_lang.specs.Syntax.{expression_of};

use crate::event::{activate, add_actions, set_condition};
use crate::limits::EVENT_LIMIT;
use crate::{Condition, Draft, EventDraft, Handle, LineFault};
use std::alloc::{AllocError, Global};
use trick_base::{Items, Word};
use trick_lang::Program;
use trick_lang::syntax::Expr;
use trick_model::{Action, Deed};
use trick_plan_conditions::{ConditionFault, is_plain, resolve};

fn new_event(alloc: Global, name: &Word, frame: u64) -> Result<EventDraft, AllocError>
    ensures { IfOk result (λ event. event ≡ new_event name.now frame) }
{
    Ok(EventDraft {
        name: name.try_clone()?,
        cycle: frame,
        condition: None,
        actions: Items::new(alloc),
        on: false,
    })
}

// Whether an event has a condition.
fn has_condition(events: &[EventDraft], at: usize) -> bool
    ensures { result ≡ asked (λ (event : EventDraft). is_some event.condition) false (slice_get events.now at) }
{
    match events.get(at) {
        Some(event) => event.condition.is_some(),
        None => false,
    }
}

// Whether there are actions of this number.
fn has_number(lists: &[(u8, Items<Deed>)], number: u64) -> bool
    ensures { result ≡ has_number number lists.now }
{
    lists.iter().any(|list| u64::from(list.0) == number)
}

// Whether an event has actions of this number.
fn has_action(events: &[EventDraft], at: usize, number: u64) -> bool
    ensures { result ≡ asked (λ (event : EventDraft). has_number number event.actions) false (slice_get events.now at) }
{
    match events.get(at) {
        Some(event) => has_number(event.actions.as_slice(), number),
        None => false,
    }
}

impl Draft {
    // A condition with its names resolved.
    fn resolve(&self, alloc: Global, e: &Expr) -> Result<Condition, LineFault>
        ensures { IsResolved (known_in self.now) (expression_of e.now) result }
    {
        match resolve(alloc, e, &self.items, &self.cells.names) {
            Ok(resolved) => Ok(Condition::new(resolved)),
            Err(ConditionFault::UnknownName) => Err(LineFault::UnknownName),
            Err(ConditionFault::OutOfMemory) => Err(LineFault::OutOfMemory),
        }
    }

    /// `v = trick.new_event("name")`: a variable stands for a new event, which begins inactive, with the
    /// software frame as its cycle. A variable that is bound and a name that an event has are
    /// `TwiceNamed`.
    pub fn new_event(
        &mut self,
        alloc: Global,
        variable: &Word,
        name: &Word,
        frame: u64,
    ) -> Result<(), LineFault>
        ensures { Did result self.new (new_event_line variable.now name.now frame self.old) }
    {
        if self.variables.meaning(variable).is_some() || self.event_names.meaning(name).is_some() {
            return Err(LineFault::TwiceNamed);
        }
        let place = self.events.len();
        let _was = self.variables.add(variable, Handle::Event(place))?;
        let _was = self.event_names.add(name, place)?;
        self.events.push(new_event(alloc, name, frame)?)?;
        Ok(())
    }

    /// `v.condition(0, "expr")`: the condition of an event. A variable that stands for no event and a
    /// name in it that is no item and no cell's are `UnknownName`, a second condition is `TwiceNamed`,
    /// and one that does not read (None) or could fault `BadAction`.
    pub fn set_condition(
        &mut self,
        alloc: Global,
        variable: &Word,
        condition: Option<&Expr>,
    ) -> Result<(), LineFault>
        ensures { Did result self.new (set_condition_line variable.now (condition_in condition.entry) self.old) }
    {
        let Some(at) = self.event_of(variable) else {
            return Err(LineFault::UnknownName);
        };
        let twice = has_condition(self.events.as_slice(), at);
        let Some(expr) = condition else {
            if twice {
                return Err(LineFault::TwiceNamed);
            }
            return Err(LineFault::BadAction);
        };
        let resolved = self.resolve(alloc, expr)?;
        if twice {
            return Err(LineFault::TwiceNamed);
        }
        if !is_plain(expr) {
            return Err(LineFault::BadAction);
        }
        set_condition(alloc, &mut self.events, at, resolved);
        Ok(())
    }

    /// `v.action(K, "actions")`: a list of actions of an event, which are done by rising number. A
    /// variable that stands for no event is `UnknownName`, a number above 15 `OutOfRange`, a number for
    /// the second time `TwiceNamed`, and actions that do not read (None) or cannot all be done are
    /// `BadAction`.
    pub fn set_action(
        &mut self,
        alloc: Global,
        program: &Program,
        variable: &Word,
        number: u64,
        actions: Option<Items<Action>>,
    ) -> Result<(), LineFault>
        requires { AreNumbered self.old.cells }
        ensures { Did result self.new (set_action_line (jobs_of program.now) variable.now number actions self.old) }
    {
        let Some(at) = self.event_of(variable) else {
            return Err(LineFault::UnknownName);
        };
        if number > 15 {
            return Err(LineFault::OutOfRange);
        }
        if has_action(self.events.as_slice(), at, number) {
            return Err(LineFault::TwiceNamed);
        }
        let Some(deeds) = self.deeds_in(alloc, program, actions)? else {
            return Err(LineFault::BadAction);
        };
        add_actions(alloc, &mut self.events, at, number as u8, deeds)?;
        Ok(())
    }

    /// `v.activate()`: an event begins active. A variable that stands for no event is `UnknownName`.
    pub fn activate(&mut self, alloc: Global, variable: &Word) -> Result<(), LineFault>
        ensures { Did result self.new (activate_line variable.now self.old) }
    {
        let Some(at) = self.event_of(variable) else {
            return Err(LineFault::UnknownName);
        };
        activate(alloc, &mut self.events, at);
        Ok(())
    }

    /// `trick.add_event(v)`: adds an event. A variable that stands for no event is `UnknownName`, an
    /// event that is added already `TwiceNamed`, and the 257th event `TooMany`.
    pub fn add_event(&mut self, variable: &Word) -> Result<(), LineFault>
        ensures { Did result self.new (add_event_line variable.now self.old) }
    {
        let Some(at) = self.event_of(variable) else {
            return Err(LineFault::UnknownName);
        };
        let name = &self.events.as_slice()[at].name;
        if self.added_events.meaning(name).is_some() {
            return Err(LineFault::TwiceNamed);
        }
        if self.added_events.len() >= EVENT_LIMIT {
            return Err(LineFault::TooMany {
                limit: EVENT_LIMIT as u64,
            });
        }
        let _was = self.added_events.add(name, at)?;
        Ok(())
    }
}
