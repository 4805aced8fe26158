//! The served run, from the first client to the last link.

ghost use Rattle.std.specs.Arc.{arc_value};
ghost use Rattle.std.specs.Prelude.{◌≡◌, Err, Some};
ghost use Rattle.trick_exec_posts.specs.Flight.{IsFree};
ghost use Rattle.trick_phase_jobs.specs.Belongs.{IsMemoryOf};
ghost use Rattle.trick_model.specs.PlanOf.{plan_of};
ghost use Rattle.trick_model.specs.State.{seen};
ghost use Rattle.trick_model.specs.ValidState.{IsStateOf};
ghost use Rattle.trick_outside.specs.declared.stop.Stop.TheVariants.{Memory as WantOfMemory};
ghost use Rattle.trick_serve_seats.specs.Taking.{hosts};
ghost use Rattle.trick_serve.specs.Served.{HasServedRun};
ghost use Rattle.trick_serve.specs.Serving.{moment, outside};

use crate::by_source::run_by;
use crate::serving::{Reception, Service, Serving};
use crate::tally::{service_of, tally_of};
use crate::workers::{crew_of, has_children};
use std::alloc::Global;
use std::marker::Brand;
use std::sync::{Arc, Wait};
use std::thread::Threads;
use trick_crew::WholeCrew;
use trick_exec::Start;
use trick_exec_alone::one_thread;
use trick_exec_laws::laws::{rounds_are_bounded, stopped_runs_leave_fronts};
use trick_exec_tic::Workers;
use trick_lang::Cells;
use trick_memory::Memory;
use trick_model::{Accepted, Planned, State};
use trick_outside::{Door, Gate, Shelf, Spawner, Stop};
use trick_phase_jobs::Phases;
use trick_post_work::Posts;
use trick_serve_clients::{Opened, close_clients, close_here, open_clients};
use trick_serve_facts::laws::joins_are_in_order;
use trick_serve_headline::laws::{tended_clients_are_sent, tended_clients_are_served};
use trick_serve_source::{Served, ServedHere};

// A run that could not begin, for want of memory.
fn not_begun<D, S>(door: D, spawner: S) -> Service<D, S>
    ensures { result ≡ record { ended = Err WantOfMemory; sessions = 0; door = door; spawner = spawner } }
{
    Service {
        ended: Err(Stop::Memory),
        sessions: 0,
        door,
        spawner,
    }
}

// Serves the run of an accepted plan from a state by these workers, who have nothing in flight: opens its clients, runs
// it, and closes the clients, also after an error. Where the acceptor was refused a thread, the source of entries asks
// the door.
fn serve_by<M: Cells + Drop, F: Shelf, D, S, R, H: Phases<M>, P: Posts>(
    reception: Reception<D, S, R>,
    accepted: &Accepted,
    start: Start<M>,
    shelf: &mut F,
    workers: &mut Workers<H, P>,
) -> Service<D, S>
where
    D: Door + Send + Drop + 'static,
    D::In: Send + Drop + 'static,
    D::Out: Send + Drop + 'static,
    S: Spawner + Send + Drop + 'static,
    R: Threads + Wait + Copy + Send + Drop + 'static,
    requires own { H.is_for workers.old.phases accepted.now.plan }
    requires posts { P.plan workers.old.posts ≡ accepted.now.plan }
    requires free { IsFree (plan_of accepted.now.plan) (P.in_flight workers.old.posts) }
    requires valid { IsStateOf (plan_of accepted.now.plan) (seen M.numbers start.state) }
    requires memory { IsMemoryOf accepted.now.plan.program (M.numbers start.state.memory)
        (M.scalars start.state.memory) }
    ensures served { HasServedRun
        (outside F.Shelf (hosts D.visited D.In.LinkIn D.Out.LinkOut S.failures D.has_client))
        (plan_of accepted.now.plan) (seen M.numbers start.state)
        (moment shelf.old reception.door reception.spawner) (moment shelf.new result.door result.spawner)
        result.sessions result.ended }
{
    tended_clients_are_served::<D, S>();
    tended_clients_are_sent::<D, S>();
    joins_are_in_order();
    rounds_are_bounded();
    stopped_runs_leave_fronts::<M, F, P, Served<D::In, D::Out, R>>();
    stopped_runs_leave_fronts::<M, F, P, ServedHere<D, S, R>>();
    let Reception { rt, door, spawner } = reception;
    match open_clients(rt, start.alloc, door, spawner) {
        Opened::Open(clients) => {
            let mut clients = clients;
            let ended = run_by(accepted, start, shelf, workers, &mut clients.served);
            let tally = tally_of(&clients.served);
            service_of(ended, tally, close_clients(&rt, clients))
        }
        Opened::Here(clients) => {
            let mut clients = clients;
            let ended = run_by(accepted, start, shelf, workers, &mut clients.served);
            let tally = tally_of(&clients.served.served);
            service_of(ended, tally, close_here(&rt, clients))
        }
        Opened::OutOfMemory(door, spawner) => not_begun(door, spawner),
    }
}

// Serves a run by a crew, and ends the crew, also after an error.
fn serve_by_crew<P: Planned + Send + 'static, F: Shelf, D, S, G, R>(
    serving: Serving<D, S, G, R>,
    alloc: Global,
    accepted: &Arc<Accepted, Global>,
    state: State<Memory>,
    shelf: &mut F,
) -> Service<D, S>
where
    D: Door + Send + Drop + 'static,
    D::In: Send + Drop + 'static,
    D::Out: Send + Drop + 'static,
    S: Spawner + Send + Drop + 'static,
    G: Gate + Send + Sync + Drop + 'static,
    R: Threads + Wait + Copy + Send + Drop + 'static,
    requires plan { P.plan ≡ Some (arc_value accepted.now).plan }
    requires valid { IsStateOf (plan_of (arc_value accepted.now).plan) (seen (λ memory. memory.numbers) state) }
    requires memory { IsMemoryOf (arc_value accepted.now).plan.program state.memory.numbers state.memory.scalars }
    ensures served { HasServedRun
        (outside F.Shelf (hosts D.visited D.In.LinkIn D.Out.LinkOut S.failures D.has_client))
        (plan_of (arc_value accepted.now).plan) (seen (λ memory. memory.numbers) state)
        (moment shelf.old serving.door serving.spawner) (moment shelf.new result.door result.spawner)
        result.sessions result.ended }
{
    let Serving {
        rt,
        door,
        mut spawner,
        gate,
    } = serving;
    let Ok(mut workers) = crew_of::<P, S, G, R>(rt, alloc, accepted, &mut spawner, gate) else {
        return not_begun(door, spawner);
    };
    let reception = Reception { rt, door, spawner };
    let service = serve_by(
        reception,
        accepted,
        Start { alloc, state },
        shelf,
        &mut workers,
    );
    let Workers { phases, posts } = workers;
    WholeCrew { phases, posts }.finish();
    service
}

// Serves a run whose jobs the caller does.
fn serve_alone<F: Shelf, D, S, R>(
    reception: Reception<D, S, R>,
    alloc: Global,
    accepted: &Arc<Accepted, Global>,
    state: State<Memory>,
    shelf: &mut F,
) -> Service<D, S>
where
    D: Door + Send + Drop + 'static,
    D::In: Send + Drop + 'static,
    D::Out: Send + Drop + 'static,
    S: Spawner + Send + Drop + 'static,
    R: Threads + Wait + Copy + Send + Drop + 'static,
    requires valid { IsStateOf (plan_of (arc_value accepted.now).plan) (seen (λ memory. memory.numbers) state) }
    requires memory { IsMemoryOf (arc_value accepted.now).plan.program state.memory.numbers state.memory.scalars }
    ensures served { HasServedRun
        (outside F.Shelf (hosts D.visited D.In.LinkIn D.Out.LinkOut S.failures D.has_client))
        (plan_of (arc_value accepted.now).plan) (seen (λ memory. memory.numbers) state)
        (moment shelf.old reception.door reception.spawner) (moment shelf.new result.door result.spawner)
        result.sessions result.ended }
{
    let Ok(mut workers) = one_thread::<Memory>(alloc, accepted) else {
        let Reception { door, spawner, .. } = reception;
        return not_begun(door, spawner);
    };
    serve_by(
        reception,
        accepted,
        Start { alloc, state },
        shelf,
        &mut workers,
    )
}

/// Runs an accepted plan, which it shares with its workers, from a state by threads, and serves the clients that the
/// door gives, until the run is over. Each scheduled child thread that has a job is started in a thread of its own, as
/// far as the spawner admits it, and so is each must-finish and asynchronous thread; where no child thread has a job the
/// caller does all jobs. Threads of their own have the acceptor, and a reader and a writer for each client; where the
/// acceptor was refused one the caller asks the door, and each client leaves at once. It writes the files of the run,
/// and where it stops a part of them. At the end each client's links are back at the door, and no thread is left, also
/// after an error.
pub fn serve<F: Shelf, D, S, G, R>(
    serving: Serving<D, S, G, R>,
    alloc: Global,
    accepted: &Arc<Accepted, Global>,
    state: State<Memory>,
    shelf: &mut F,
) -> Service<D, S>
where
    D: Door + Send + Drop + 'static,
    D::In: Send + Drop + 'static,
    D::Out: Send + Drop + 'static,
    S: Spawner + Send + Drop + 'static,
    G: Gate + Send + Sync + Drop + 'static,
    R: Threads + Wait + Copy + Send + Drop + 'static,
    requires valid { IsStateOf (plan_of (arc_value accepted.now).plan) (seen (λ memory. memory.numbers) state) }
    requires memory { IsMemoryOf (arc_value accepted.now).plan.program state.memory.numbers state.memory.scalars }
    ensures served { HasServedRun
        (outside F.Shelf (hosts D.visited D.In.LinkIn D.Out.LinkOut S.failures D.has_client))
        (plan_of (arc_value accepted.now).plan) (seen (λ memory. memory.numbers) state)
        (moment shelf.old serving.door serving.spawner) (moment shelf.new result.door result.spawner)
        result.sessions result.ended }
{
    if has_children(accepted.plan()) {
        return serve_by_crew::<Brand, F, D, S, G, R>(serving, alloc, accepted, state, shelf);
    }
    let Serving {
        rt,
        door,
        spawner,
        ..
    } = serving;
    serve_alone(
        Reception { rt, door, spawner },
        alloc,
        accepted,
        state,
        shelf,
    )
}
