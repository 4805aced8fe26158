//! The events of a plan.

ghost use Rattle.std.specs.Prelude.{◌≡◌, IfOk, length, map, option_map};
ghost use Rattle.trick_plan_draft.specs.Kept.{AreAdded, names_of_events};
ghost use Rattle.trick_plan_draft.specs.declared.event.EventDraft.{EventDraft};
ghost use Rattle.trick_plan_ending.specs.Added.{ArePlaces, added, at_places};
ghost use Rattle.trick_plan_ending.specs.Ending.{draft_tree, event_tree};
ghost use Rattle.trick_lang.specs.TreeOf.{term_of};

use crate::places::places;
use std::alloc::{AllocError, Global};
use std::mem;
use trick_base::Items;
use trick_check_names::Names;
use trick_lang::Expr;
use trick_model::{Event, Flags};
use trick_plan_draft::{Condition, EventDraft};

// The tree of a condition, where there is one.
fn tree(condition: Option<Condition>) -> Option<Expr>
    ensures { option_map term_of result ≡ condition }
{
    match condition {
        Some(condition) => Some(condition.into_expr()),
        None => None,
    }
}

// The event of a plan that a draft gives.
fn plan_event(draft: EventDraft) -> Event
    ensures { event_tree result ≡ draft_tree draft }
{
    Event {
        name: draft.name,
        cycle: draft.cycle,
        condition: tree(draft.condition),
        actions: draft.actions,
    }
}

// What is left where a draft is taken out.
fn no_draft(alloc: Global) -> EventDraft {
    EventDraft {
        name: Items::new(alloc),
        cycle: 1,
        condition: None,
        actions: Items::new(alloc),
        on: false,
    }
}

// Whether each of the events at these places begins active.
fn flags_at(
    alloc: Global,
    drafts: &[EventDraft],
    places: &[usize],
) -> Result<Items<bool>, AllocError>
    requires { ArePlaces (length drafts.now) places.now }
    ensures { IfOk result (λ on. on ≡ map (λ (event : EventDraft). event.on) (at_places drafts.now places.now)) }
{
    let mut on = Items::new(alloc);
    for place in places {
        on.push(drafts[*place].on)?;
    }
    Ok(on)
}

// The events at these places.
fn events_at(
    alloc: Global,
    drafts: Items<EventDraft>,
    places: &[usize],
) -> Result<Items<Event>, AllocError>
    requires { ArePlaces (length drafts) places.now }
    ensures { IfOk result (λ events. map event_tree events ≡ map draft_tree (at_places drafts places.now)) }
{
    let mut left = drafts.into_vec();
    let mut events = Items::new(alloc);
    for place in places {
        let draft = mem::replace(&mut left[*place], no_draft(alloc));
        events.push(plan_event(draft))?;
    }
    Ok(events)
}

// The events that are added, in the order of their adding, with their flags.
pub(crate) fn events(
    alloc: Global,
    drafts: Items<EventDraft>,
    names: &Names<usize>,
) -> Result<(Items<Event>, Flags), AllocError>
    requires { AreAdded 256 (names_of_events drafts) names.now }
    ensures events { IfOk result (λ found. map event_tree found.0 ≡ map draft_tree (added drafts names.now)) }
    ensures on { IfOk result (λ found.
        (found.1).on ≡ map (λ (event : EventDraft). event.on) (added drafts names.now)) }
{
    let places = places(alloc, names)?;
    let on = flags_at(alloc, drafts.as_slice(), &places)?;
    let events = events_at(alloc, drafts, &places)?;
    Ok((events, Flags { on }))
}
