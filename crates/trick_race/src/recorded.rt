// Recorded cells and cells of conditions that asynchronous work may reach.

ghost use Rattle.std.specs.Prelude.{◌≡◌, All, MatchOption};
ghost use Rattle.trick_model.specs.Acceptance.{IsDecidable, IsRecordable};
ghost use Rattle.trick_model.specs.Condition.{condition_reads};
ghost use Rattle.trick_model.specs.Plan.{Event as EventOf};
ghost use Rattle.trick_model.specs.PlanOf.{plan_of};
ghost use Rattle.trick_model.specs.declared.group.Group.{Group};
ghost use Rattle.trick_race.specs.Accesses.{has_some};
ghost use Rattle.trick_race.specs.Reached.{IsOutside, IsReachSet};
ghost use Rattle.trick_race.specs.Refusals.{AreDecidable, AreRecordable, IsFirstItemWithout, IsFirstWithout, IsGroupRecordable};

use crate::cell_set::CellSet;
use crate::reads::reads_some;
use trick_lang::Cell;
use trick_model::{Event, Plan};

// The first of the cells that is in the set.
fn first_in(cells: &[Cell], set: &CellSet) -> Option<Cell>
    ensures { MatchOption result (All (IsOutside set.now) cells.now)
        (IsFirstItemWithout (IsOutside set.now) cells.now) }
{
    for cell in cells {
        if set.has(cell.0 as usize) {
            return Some(*cell);
        }
    }
    None
}

// The first group that records a cell of the reach, by its number, and the first such cell of it.
pub(crate) fn async_recorded(plan: &Plan, reach: &CellSet) -> Option<(usize, Cell)>
    requires { IsReachSet (plan_of plan.now) reach.now }
    ensures { MatchOption result (AreRecordable (plan_of plan.now))
        (λ found. (group : Group) × IsFirstWithout (IsGroupRecordable (plan_of plan.now)) plan.now.groups found.0 group
        × IsFirstItemWithout (IsRecordable (plan_of plan.now)) group.cells found.1) }
{
    let groups = plan.groups.as_slice();
    for number in 0..groups.len() {
        if let Some(cell) = first_in(groups[number].cells.as_slice(), reach) {
            return Some((number, cell));
        }
    }
    None
}

// Whether the condition of an event reads a cell of the set.
fn condition_reads_some(event: &Event, set: &CellSet) -> bool
    ensures { result ≡ has_some set.now (condition_reads event.now.condition) }
{
    match &event.condition {
        None => false,
        Some(condition) => reads_some(condition, set),
    }
}

// The first event whose condition has a cell of the reach, by its number.
pub(crate) fn async_event(plan: &Plan, reach: &CellSet) -> Option<usize>
    requires { IsReachSet (plan_of plan.now) reach.now }
    ensures { MatchOption result (AreDecidable (plan_of plan.now))
        (λ number. (event : EventOf)
        × IsFirstWithout (IsDecidable (plan_of plan.now)) (plan_of plan.now).events number event) }
{
    let events = plan.events.as_slice();
    for number in 0..plan.events.len() {
        let event = &events[number];
        if condition_reads_some(event, reach) {
            return Some(number);
        }
    }
    None
}
