//! The publications that count.

ghost use Rattle.std.specs.Prelude.{◌≡◌, ◌++◌, IfOk, OnOk};
ghost use Rattle.trick_exec_posts.specs.Stations.{AreStations};
ghost use Rattle.trick_exec_frame.specs.Adds.{counted_of};
ghost use Rattle.trick_model.specs.PlanOf.{plan_of};
ghost use Rattle.trick_model.specs.State.{seen};
ghost use Rattle.trick_model.specs.declared.plan.Plan.{Plan as PlanValue};
ghost use Rattle.trick_exec_meaning.specs.Parts.{counting};

use crate::round::is_in_flight;
use std::alloc::{AllocError, Global};
use trick_exec_posts::Station;
use trick_lang::Cells;
use trick_model::{Entry, State};

// Adds an entry, if it is a publication that counts.
fn add_counting<M: Cells>(
    stations: &[Station],
    state: &State<M>,
    entry: &Entry,
    entries: &mut Vec<Entry>,
) -> Result<(), AllocError>
    ensures { (plan : PlanValue) → AreStations (plan_of plan) stations.now → OnOk result (entries.new.items
        ≡ entries.old.items ++ counted_of (plan_of plan) (seen M.numbers state.now) entry.now) }
{
    let Entry::Publish { thread } = entry else {
        return Ok(());
    };
    if !state.runs() {
        return Ok(());
    }
    if !is_in_flight(stations, state, *thread) {
        return Ok(());
    }
    entries.push(Entry::Publish { thread: *thread })?;
    Ok(())
}

/// The publications among these entries that count, in their order: in a run frame those of rounds that are
/// in flight. The only refusal is for want of memory.
pub fn counting<M: Cells>(
    alloc: Global,
    stations: &[Station],
    state: &State<M>,
    publications: &[Entry],
) -> Result<Vec<Entry>, AllocError>
    ensures { (plan : PlanValue) → AreStations (plan_of plan) stations.now
        → IfOk result (λ entries. entries.items ≡ counting (plan_of plan) (seen M.numbers state.now) publications.now) }
{
    let mut entries = Vec::new(alloc);
    for entry in publications {
        add_counting(stations, state, entry, &mut entries)?;
    }
    Ok(entries)
}
