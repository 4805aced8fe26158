//! A whole run.

ghost use Rattle.std.specs.Prelude.{◌≡◌, ◌+◌, ◌<◌, ◌≤◌, IfOk, false, map};
ghost use Rattle.trick_exec_posts.specs.Flight.{AsksNothing, GoesWith, IsFree};
ghost use Rattle.trick_exec_posts.specs.Stations.{AreStations};
ghost use Rattle.trick_exec_posts.specs.declared.station.Station.{Station as StationValue};
ghost use Rattle.trick_eval.specs.Bench.{IsFor};
ghost use Rattle.trick_exec.specs.Ended.{Closes, IsRun};
ghost use Rattle.trick_exec_turn.specs.Lent.{IsSame, MayStart, place};
ghost use Rattle.trick_exec_turn.specs.Worlds.{world_of};
ghost use Rattle.trick_phase_jobs.specs.Belongs.{IsMemoryOf};
ghost use Rattle.trick_model.specs.Files.{end_writes};
ghost use Rattle.trick_model.specs.PlanOf.{plan_of};
ghost use Rattle.trick_model.specs.Run.{shut as shut_of};
ghost use Rattle.trick_model.specs.State.{seen};
ghost use Rattle.trick_base.specs.Time.{tic_limit};
ghost use Rattle.trick_model.specs.ValidState.{IsStateOf};
ghost use Rattle.trick_outside.specs.Does.{Does};
ghost use Rattle.trick_exec_meaning.specs.Hosts.{at, hosts};
ghost use Rattle.trick_exec_meaning.specs.Rounds.{no_waits};
ghost use Rattle.trick_exec_tic.specs.Course.{IsCourseOf};
ghost use Rattle.trick_exec_tic.specs.Steps.{steps_of};
ghost use Rattle.trick_exec_sources.specs.Turns.{no_sessions};

use crate::going::go;
use crate::{Ended, Start, World};
use std::alloc::{AllocError, Global};
use std::marker::Brand;
use std::sync::ledger::{Blank, Ledger};
use trick_eval::Bench;
use trick_exec_classes::shut;
use trick_exec_files::{begin_files, end_files};
use trick_exec_frame::Equipment;
use trick_exec_posts::{Station, start_held};
use trick_exec_sources::Turns;
use trick_exec_tic::Workers;
use trick_exec_turn::{Keeping, Run};
use trick_lang::Cells;
use trick_model::{Accepted, Plan, State, laws};
use trick_outside::{Shelf, Stop};
use trick_phase_jobs::Phases;
use trick_post_work::Posts;
use trick_queue::Steps;

// For each of these threads that its round has not waited.
fn no_wait(alloc: Global, stations: &[Station]) -> Result<Vec<u64>, AllocError>
    ensures { IfOk result (λ waits. waits.items ≡ map (λ (station : StationValue). 0) stations.now) }
{
    let mut waits = Vec::new(alloc);
    for _station in stations {
        waits.push(0)?;
    }
    Ok(waits)
}

// What a run of an accepted plan keeps beside its world.
fn keep<M: Cells, L: Ledger>(
    alloc: Global,
    accepted: &Accepted,
    state: &State<M>,
    steps: Steps<L>,
) -> Result<Keeping<L>, AllocError>
    requires { state.now.tic ≤ tic_limit + 1 }
    ensures course { IfOk result (λ keeping. IsCourseOf accepted.now.plan keeping.equipment.course (seen M.numbers state.now)) }
    ensures bench { IfOk result (λ keeping. IsFor accepted.now.plan.program keeping.equipment.bench.parts) }
    ensures waits { IfOk result (λ keeping. keeping.waits.items ≡ no_waits (plan_of accepted.now.plan)) }
{
    let equipment = Equipment::new(alloc, accepted, state, steps)?;
    let waits = no_wait(alloc, equipment.course.stations())?;
    Ok(Keeping {
        alloc,
        equipment,
        waits,
    })
}

// Starts again what a state holds of threads beside the tics.
fn hold<M: Cells, H, P: Posts, L: Ledger>(
    equipment: &Equipment<L>,
    state: &State<M>,
    workers: &mut Workers<H, P>,
)
    requires stations { AreStations (plan_of (P.plan workers.old.posts)) equipment.now.course.ends.stations }
    requires valid { IsStateOf (plan_of (P.plan workers.old.posts)) (seen M.numbers state.now) }
    requires memory { IsMemoryOf (P.plan workers.old.posts).program (M.numbers state.now.memory)
        (M.scalars state.now.memory) }
    requires free { IsFree (plan_of (P.plan workers.old.posts)) (P.in_flight workers.old.posts) }
    ensures goes { GoesWith (P.plan workers.new.posts) (P.in_flight workers.new.posts) state.now.tic
        (seen M.numbers state.now) (M.scalars state.now.memory) }
    ensures asks { AsksNothing P.Posts workers.old.posts workers.new.posts }
    ensures phases { workers.new.phases ≡ workers.old.phases }
{
    start_held(equipment.course.stations(), state, &mut workers.posts);
}

// Ends a run that is over in this world: the shutdown jobs run, and the last files are written.
fn close<M: Cells + Drop, F: Shelf>(
    alloc: Global,
    plan: &Plan,
    world: World<M>,
    bench: &mut Bench,
    shelf: &mut F,
) -> Result<World<M>, Stop>
    requires bench { IsFor plan.now.program bench.old.parts }
    requires memory { IsMemoryOf plan.now.program (M.numbers world.state.memory) (M.scalars world.state.memory) }
    ensures shut { IfOk result (λ after. seen M.numbers after.state
        ≡ shut_of (plan_of plan.now) (seen M.numbers world.state)) }
    ensures sessions { IfOk result (λ after. after.sessions ≡ world.sessions) }
    ensures does { Does F.Shelf shelf.old shelf.new result
        (steps_of (end_writes (plan_of plan.now) (shut_of (plan_of plan.now) (seen M.numbers world.state)))) }
{
    let mut world = world;
    shut(plan, &mut world.state, bench);
    end_files(alloc, plan, &world.state, shelf)?;
    Ok(world)
}

// Ends a run whose turns came to this. Where its source tells a journal that has another end, the run ends
// as one that does not fit, and nothing more is written.
fn end<M: Cells + Drop, F: Shelf, H, P, T: Turns<M>, L: Ledger>(
    run: &mut Run<'_, F, H, P, T, L>,
    plan: &Plan,
    world: World<M>,
) -> Result<Ended<M>, Stop>
    requires bench { IsFor plan.now.program run.old.equipment.now.bench.parts }
    requires memory { IsMemoryOf plan.now.program (M.numbers world.state.memory) (M.scalars world.state.memory) }
    ensures same { IsSame run.old run.new }
    ensures workers { run.new.workers.now ≡ run.old.workers.now }
    ensures closes { Closes F.Shelf T.Turns M.numbers (plan_of plan.now) (world_of M.numbers world)
        run.old.shelf.now run.new.shelf.now run.old.turns.now run.new.turns.now result }
{
    if let Some((kept, given)) = run.turns.ends(world.state.turn) {
        return Ok(Ended::Length { kept, given });
    }
    let world = close(run.alloc, plan, world, &mut run.equipment.bench, run.shelf)?;
    Ok(Ended::Done(world))
}

// The whole run from a state: its first files, its turns and its end.
fn whole<M: Cells + Drop, F: Shelf, H: Phases<M>, P: Posts, T: Turns<M>, L: Ledger>(
    run: &mut Run<'_, F, H, P, T, L>,
    accepted: &Accepted,
    state: State<M>,
) -> Result<Ended<M>, Stop>
    requires starts { MayStart H.Phases P.Posts T.Turns accepted.now.plan run.old (seen M.numbers state)
        (M.scalars state.memory) }
    ensures same { IsSame run.old run.new }
    ensures run { IsRun (hosts F.Shelf T.Turns P.Posts) M.numbers (plan_of accepted.now.plan)
        (seen M.numbers state) (place run.old) (place run.new) result }
{
    laws::runs_join();
    let alloc = run.alloc;
    let plan = accepted.plan();
    hold(run.equipment, &state, run.workers);
    begin_files(
        alloc,
        plan,
        state.turn,
        run.equipment.course.logs(),
        run.shelf,
    )?;
    let world = World {
        state,
        sessions: Vec::new(alloc),
    };
    match go(run, accepted, world)? {
        Ended::Done(world) => end(run, plan, world),
        Ended::Length { kept, given } => Ok(Ended::Length { kept, given }),
    }
}

// Runs a plan, and counts in a ledger that this opens how often its calendar is read.
fn run_by<M: Cells + Drop, F: Shelf, H: Phases<M>, P: Posts, T: Turns<M>, L: Ledger>(
    accepted: &Accepted,
    start: Start<M>,
    shelf: &mut F,
    workers: &mut Workers<H, P>,
    turns: &mut T,
    blank: Blank,
) -> Result<Ended<M>, Stop>
    requires own { H.is_for workers.old.phases accepted.now.plan }
    requires posts { P.plan workers.old.posts ≡ accepted.now.plan }
    requires free { IsFree (plan_of accepted.now.plan) (P.in_flight workers.old.posts) }
    requires valid { IsStateOf (plan_of accepted.now.plan) (seen M.numbers start.state) }
    requires memory { IsMemoryOf accepted.now.plan.program (M.numbers start.state.memory)
        (M.scalars start.state.memory) }
    requires unknown { T.sessions turns.old ≡ no_sessions }
    requires paid { T.owes turns.old ≡ false }
    requires name { blank.name ≡ L.name }
    requires parts { blank.parts ≡ L.parts }
    requires one { 0 < L.parts }
    ensures run { IsRun (hosts F.Shelf T.Turns P.Posts) M.numbers (plan_of accepted.now.plan)
        (seen M.numbers start.state) (at shelf.old turns.old workers.old.posts)
        (at shelf.new turns.new workers.new.posts) result }
{
    laws::runs_join();
    let Start { alloc, state } = start;
    let Ok(mut keeping) = keep(alloc, accepted, &state, Steps::<L>::new(blank)) else {
        return Err(Stop::Memory);
    };
    let mut run = Run::new(&mut keeping, shelf, workers, turns);
    whole(&mut run, accepted, state)
}

/// Runs a plan from a state over a shelf, workers and a source of entries, until the run is over, and says
/// how it ends. It writes the files of the run: the journal, the logs, the checkpoints that are asked for,
/// `final.chk` and `faults.txt`; no message is handed to the source before the entries that it answers are
/// in the journal. The workers have nothing in flight; what the state holds of threads beside the tics is
/// started again. `docs/RULES.md` has the rules of a run and `docs/FORMATS.md` the files. It stops where the
/// shelf failed, or where there was no memory; the world is gone then.
pub fn run<M: Cells + Drop, F: Shelf, H: Phases<M>, P: Posts, T: Turns<M>>(
    accepted: &Accepted,
    start: Start<M>,
    shelf: &mut F,
    workers: &mut Workers<H, P>,
    turns: &mut T,
) -> Result<Ended<M>, Stop>
    requires own { H.is_for workers.old.phases accepted.now.plan }
    requires posts { P.plan workers.old.posts ≡ accepted.now.plan }
    requires free { IsFree (plan_of accepted.now.plan) (P.in_flight workers.old.posts) }
    requires valid { IsStateOf (plan_of accepted.now.plan) (seen M.numbers start.state) }
    requires memory { IsMemoryOf accepted.now.plan.program (M.numbers start.state.memory)
        (M.scalars start.state.memory) }
    requires unknown { T.sessions turns.old ≡ no_sessions }
    requires paid { T.owes turns.old ≡ false }
    ensures run { IsRun (hosts F.Shelf T.Turns P.Posts) M.numbers (plan_of accepted.now.plan)
        (seen M.numbers start.state) (at shelf.old turns.old workers.old.posts)
        (at shelf.new turns.new workers.new.posts) result }
{
    run_by::<M, F, H, P, T, Brand>(accepted, start, shelf, workers, turns, Blank::new(1))
}
