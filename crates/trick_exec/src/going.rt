//! The turns of a run.

ghost use Rattle.std.specs.Prelude.{◌≡◌, ◌||◌, ◌+◌, [], IfOk, false, min, nat_le};
ghost use Rattle.trick_exec.specs.Ended.{AreTurns, HasMemory};
ghost use Rattle.trick_eval.specs.Bench.{IsFor};
ghost use Rattle.trick_exec_turn.specs.Lent.{IsReady, IsSame, place};
ghost use Rattle.trick_model.specs.PlanOf.{plan_of};
ghost use Rattle.trick_model.specs.Run.{is_shut};
ghost use Rattle.trick_model.specs.State.{seen};
ghost use Rattle.trick_model.specs.Time.{last_turn};
ghost use Rattle.trick_exec_meaning.specs.Hosts.{hosts};
ghost use Rattle.trick_exec_meaning.specs.Rounds.{no_waits};
ghost use Rattle.trick_exec_sources.specs.Turns.{no_sessions};

use crate::{Ended, World};
use std::sync::ledger::Ledger;
use trick_exec_sources::{Next, Turns};
use trick_exec_turn::{Given, Run, ask, idles};
use trick_lang::Cells;
use trick_model::{Accepted, LAST_TURN, Mode, State, laws};
use trick_outside::{Shelf, Stop};
use trick_phase_jobs::Phases;
use trick_post_work::Posts;

// Whether a run is over without a question to its source.
fn is_over<M: Cells>(state: &State<M>) -> bool
    ensures { result ≡ (is_shut state.now.mode || nat_le state.now.limit state.now.tic) }
{
    match state.mode {
        Mode::Shutdown => true,
        Mode::Run | Mode::Freeze => state.limit <= state.tic,
    }
}

// How often a run asks its source at most: for each turn that is counted, at the last one for each tic that is left, and
// once more, when it is over.
fn most_turns<M: Cells>(state: &State<M>) -> u64 {
    LAST_TURN
        .saturating_sub(state.turn)
        .saturating_add(state.limit.saturating_sub(state.tic))
        .saturating_add(1)
}

// The turn that comes so many turns after another one, up to where the count stands still.
fn later(turn: u64, turns: u64) -> u64
    ensures { result ≡ min (turn + turns) last_turn }
{
    turn.saturating_add(turns).min(LAST_TURN)
}

/// The turns of a run, until it is over. Before each its source is asked for the turn's entries. A turn that is
/// given none and in which nothing is done costs next to nothing, and turns in Freeze without an entry pass at
/// once. It stops as for want of memory where entries come without an end at the last turn that is counted.
pub(crate) fn go<M: Cells + Drop, F: Shelf, H: Phases<M>, P: Posts, T: Turns<M>, L: Ledger>(
    run: &mut Run<'_, F, H, P, T, L>,
    accepted: &Accepted,
    world: World<M>,
) -> Result<Ended<M>, Stop>
    requires ready { IsReady H.Phases P.Posts accepted.now.plan run.old (seen M.numbers world.state)
        (M.scalars world.state.memory) }
    requires waits { run.old.waits.now.items ≡ no_waits (plan_of accepted.now.plan) }
    requires sessions { world.sessions.items ≡ [] }
    requires unknown { T.sessions run.old.turns.now ≡ no_sessions }
    requires paid { T.owes run.old.turns.now ≡ false }
    ensures same { IsSame run.old run.new }
    ensures turns { AreTurns (hosts F.Shelf T.Turns P.Posts) M.numbers (plan_of accepted.now.plan)
        (seen M.numbers world.state) (place run.old) (place run.new) result }
    ensures bench { IfOk result (λ ended. IsFor accepted.now.plan.program run.new.equipment.now.bench.parts) }
    ensures memory { IfOk result (λ ended. HasMemory accepted.now.plan.program M.numbers M.scalars ended) }
{
    laws::runs_join();
    let decides = run.turns.decides();
    let mut world = world;
    for _turn in 0..most_turns(&world.state) {
        if is_over(&world.state) {
            return Ok(Ended::Done(world));
        }
        match ask(run.turns, run.alloc, &world.state, &world.sessions) {
            Next::Entries(entries) => {
                let given = Given {
                    entries: &entries,
                    decides,
                };
                world = run.turn(accepted, given, world)?;
            }
            Next::Nothing => {
                if idles(accepted, &mut world, run.equipment, &run.workers.posts) {
                    continue;
                }
                let given = Given {
                    entries: &[],
                    decides,
                };
                world = run.turn(accepted, given, world)?;
                continue;
            }
            Next::Gap { turns } => {
                world.state.turn = later(world.state.turn, turns);
                continue;
            }
            Next::NoMore => return Ok(Ended::Done(world)),
            Next::Length { kept, given } => return Ok(Ended::Length { kept, given }),
            Next::OutOfMemory => return Err(Stop::Memory),
        }
    }
    Err(Stop::Memory)
}
