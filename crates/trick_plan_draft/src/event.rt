//! Events, and their changes one by one.

ghost use Rattle.std.specs.Prelude.{◌≡◌, ◌<◌, ◌≤◌, IfOk, OnOk, Some, true, length};
ghost use Rattle.trick_plan_draft.specs.Changed.{changed};
ghost use Rattle.trick_plan_draft.specs.Lines.{with_numbered};
ghost use Rattle.trick_plan_draft.specs.Places.{place_for};
ghost use Rattle.trick_plan_draft.specs.declared.event.EventDraft.{EventDraft};

use crate::Condition;
use std::alloc::{AllocError, Global};
use std::mem;
use trick_base::{Items, Word};
use trick_model::Deed;

/// An event, as the lines so far have made it.
#[derive(Drop)]
pub struct EventDraft {
    pub name: Word,
    /// In tics; the software frame where no line says otherwise.
    pub cycle: u64,
    pub condition: Option<Condition>,
    /// What its actions ask for: lists by rising number, from 0 to 15.
    pub actions: Items<(u8, Items<Deed>)>,
    /// Whether the event begins active.
    pub on: bool,
}

// Gives an event a cycle.
pub(crate) fn set_cycle(alloc: Global, events: &mut Items<EventDraft>, at: usize, tics: u64)
    requires { at < length events.old }
    ensures { events.new ≡ changed (λ (event : EventDraft). record event { cycle = tics }) events.old at }
{
    let mut all = mem::replace(events, Items::new(alloc)).into_vec();
    all[at].cycle = tics;
    *events = Items::from_vec(all);
}

// Lets an event begin active.
pub(crate) fn activate(alloc: Global, events: &mut Items<EventDraft>, at: usize)
    requires { at < length events.old }
    ensures { events.new ≡ changed (λ (event : EventDraft). record event { on = true }) events.old at }
{
    let mut all = mem::replace(events, Items::new(alloc)).into_vec();
    all[at].on = true;
    *events = Items::from_vec(all);
}

// Gives an event a condition.
pub(crate) fn set_condition(
    alloc: Global,
    events: &mut Items<EventDraft>,
    at: usize,
    condition: Condition,
)
    requires { at < length events.old }
    ensures { events.new
        ≡ changed (λ (event : EventDraft). record event { condition = Some condition }) events.old at }
{
    let mut all = mem::replace(events, Items::new(alloc)).into_vec();
    let _none = mem::replace(&mut all[at].condition, Some(condition));
    *events = Items::from_vec(all);
}

// The place of the first list of a larger number.
fn place_of(lists: &[(u8, Items<Deed>)], number: u8) -> usize
    ensures place { result ≡ place_for number lists.now }
    ensures within { result ≤ length lists.now }
{
    for place in 0..lists.len() {
        if number < lists[place].0 {
            return place;
        }
    }
    lists.len()
}

// Adds a list of deeds at its place by number.
fn insert(
    lists: Items<(u8, Items<Deed>)>,
    number: u8,
    actions: Items<Deed>,
) -> Result<Items<(u8, Items<Deed>)>, AllocError>
    ensures { IfOk result (λ all. all ≡ with_numbered (number, actions) lists) }
{
    let mut all = lists.into_vec();
    let place = place_of(&all, number);
    all.insert(place, (number, actions))?;
    Ok(Items::from_vec(all))
}

// Gives an event a list of deeds.
fn give(
    alloc: Global,
    event: &mut EventDraft,
    number: u8,
    actions: Items<Deed>,
) -> Result<(), AllocError>
    ensures { OnOk result (event.new
        ≡ record event.old { actions = with_numbered (number, actions) event.old.actions }) }
{
    let lists = mem::replace(&mut event.actions, Items::new(alloc));
    event.actions = insert(lists, number, actions)?;
    Ok(())
}

// Gives an event a list of deeds.
pub(crate) fn add_actions(
    alloc: Global,
    events: &mut Items<EventDraft>,
    at: usize,
    number: u8,
    actions: Items<Deed>,
) -> Result<(), AllocError>
    requires { at < length events.old }
    ensures { OnOk result (events.new ≡ changed
        (λ (event : EventDraft). record event { actions = with_numbered (number, actions) event.actions })
        events.old at) }
{
    let mut all = mem::replace(events, Items::new(alloc)).into_vec();
    give(alloc, &mut all[at], number, actions)?;
    *events = Items::from_vec(all);
    Ok(())
}
