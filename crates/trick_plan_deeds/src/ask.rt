//! Actions as deeds.

ghost use Rattle.std.specs.Prelude.{◌≡◌, IfSome, []};
ghost use Rattle.trick_plan_deeds.specs.Deeds.{fitting};
ghost use Rattle.trick_lang.specs.Effect.{scalars_of};
ghost use Rattle.trick_lang.specs.Wrap.{IsOf};
ghost use Rattle.trick_model.specs.Events.{names_of};
ghost use Rattle.trick_model.specs.Names.{deed_of, find_name, set_in_range, stop_after};
ghost use Rattle.trick_model.specs.PlanOf.{plan_of};
ghost use Rattle.trick_model.specs.Valid.{IsDeedAmong, cell_names, names_in};

use crate::find::{find_cell, find_job};
use crate::named::place_of;
use trick_base::TIC_LIMIT;
use trick_lang::{Program, Scalar, wrap};
use trick_model::{Action, Deed, Event, Group, Plan, cell_type};

/// The number, if it is one of the type. Takes no memory.
pub fn fitting(scalar: Scalar, number: i128) -> Option<i64>
    ensures number { result ≡ fitting scalar number }
    ensures range { IfSome result (IsOf scalar) }
{
    let stored = wrap(scalar, number);
    if i128::from(stored) == number {
        Some(stored)
    } else {
        None
    }
}

// A cell of this name gets a number, if that is in its range.
fn set_cell(program: &Program, name: &[u8], number: i128) -> Option<Deed>
    ensures deed { result
        ≡ set_in_range (scalars_of program.now.cells) number (find_name name.now (cell_names program.now.cells)) }
    ensures there { IfSome result (IsDeedAmong (names_in program.now [] [])) }
{
    let cell = find_cell(program, name)?;
    let number = fitting(cell_type(program, cell), number)?;
    Some(Deed::SetCell { cell, number })
}

/// A stop after no tic, or after one that is a time; none where it is too late. Takes no memory.
pub fn stop(at: Option<u64>) -> Option<Deed>
    ensures { result ≡ stop_after at }
{
    match at {
        Some(at) if at > TIC_LIMIT => None,
        _ => Some(Deed::Stop { at }),
    }
}

/// What an action asks for among the cells and jobs of a program and among these groups and events,
/// as the page RULES of the documents says it; none where it asks for nothing that can be done. It
/// takes time as there are names, and no memory.
pub fn deed_of(
    program: &Program,
    groups: &[Group],
    events: &[Event],
    action: &Action,
) -> Option<Deed>
    ensures deed { result ≡ deed_of (names_in program.now groups.now events.now) action.now }
    ensures there { IfSome result (IsDeedAmong (names_in program.now groups.now events.now)) }
{
    match action {
        Action::SetCell { name, number } => set_cell(program, name.as_slice(), *number),
        Action::SetJob { name, instance, on } => {
            let job = find_job(program, name.as_slice(), *instance)?;
            Some(Deed::SetJob { job, on: *on })
        }
        Action::Freeze => Some(Deed::Freeze),
        Action::Stop { at } => stop(*at),
        Action::Checkpoint => Some(Deed::Checkpoint),
        Action::SetGroup { name, on } => {
            let group = place_of(groups, name.as_slice())?;
            Some(Deed::SetGroup { group, on: *on })
        }
        Action::SetEvent { name, on } => {
            let event = place_of(events, name.as_slice())?;
            Some(Deed::SetEvent { event, on: *on })
        }
    }
}

/// What an action asks for in a plan; none where it asks for nothing that can be done.
pub fn deed_in_plan(plan: &Plan, action: &Action) -> Option<Deed>
    ensures deed { result ≡ deed_of (names_of (plan_of plan.now)) action.now }
    ensures there { IfSome result (IsDeedAmong (names_of (plan_of plan.now))) }
{
    let groups = plan.groups.as_slice();
    let events = plan.events.as_slice();
    deed_of(&plan.program, groups, events, action)
}
