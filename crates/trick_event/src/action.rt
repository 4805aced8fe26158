//! What a deed does.

ghost use Rattle.std.specs.Prelude.{◌≡◌, length};
ghost use Rattle.trick_event.specs.Asking.{asking, IsTimely, moment_of};
ghost use Rattle.trick_event.specs.Deeds.{CanDo, IsTimeOf};
ghost use Rattle.trick_model.specs.Events.{do_deed, stopped};
ghost use Rattle.trick_model.specs.State.{seen};

use crate::{Asked, Moment};
use trick_lang::Cells;
use trick_model::{Deed, State};

// The limit after a stop.
fn limit<M: Cells>(state: &State<M>, moment: Moment, at: Option<u64>) -> u64
    requires moment { IsTimely moment }
    requires at { IsTimeOf at }
    ensures { result ≡ stopped (moment_of moment) at (seen M.numbers state.now) }
{
    match (moment, at) {
        (Moment::Tic(tic), None) => tic + 1,
        (Moment::Tic(tic), Some(at)) => at.max(tic) + 1,
        (Moment::Between, None) => state.tic,
        (Moment::Between, Some(at)) => (at + 1).max(state.tic),
    }
}

/// Does a deed to a memory that has its cell. A freeze and a checkpoint are remembered in `asked`; all
/// else is done at once. It looks no name up, and takes no memory.
pub fn act<M: Cells>(deed: Deed, state: &mut State<M>, asked: &mut Asked, moment: Moment)
    requires moment { IsTimely moment }
    requires deed { CanDo (length (M.numbers state.old.memory)) (M.scalars state.old.memory) deed }
    ensures done { asking M.numbers state.new asked.new
        ≡ do_deed (moment_of moment) deed (asking M.numbers state.old asked.old) }
    ensures length { length (M.numbers state.new.memory) ≡ length (M.numbers state.old.memory) }
    ensures scalars { M.scalars state.new.memory ≡ M.scalars state.old.memory }
{
    match deed {
        Deed::SetCell { cell, number } => state.memory.set(cell, number),
        Deed::SetJob { job, on } => state.jobs.turn(job.0 as usize, on),
        Deed::Freeze => asked.freeze = true,
        Deed::Stop { at } => state.limit = limit(state, moment, at),
        Deed::Checkpoint => asked.checkpoint = true,
        Deed::SetGroup { group, on } => state.groups.turn(group, on),
        Deed::SetEvent { event, on } => state.events.turn(event, on),
    }
}
