//! How the clients of a run are closed.

ghost use Rattle.std.specs.Prelude.{◌≡◌, []};
ghost use Rattle.trick_serve_source.specs.Calls.{View};
ghost use Rattle.trick_serve_source.specs.Rolls.{view_of};
ghost use Rattle.trick_serve_clients.specs.Opened.{HasBegun, start_with};
ghost use Rattle.trick_serve_clients.specs.Over.{AreOver};
ghost use Rattle.trick_serve_clients.specs.Tended.{HasTended};
ghost use Rattle.trick_serve_door.specs.Asking.{IsAsking};
ghost use Rattle.trick_serve_seats.specs.Taking.{Start, hosts};
ghost use Rattle.trick_wire.specs.Ends.{AreEnds, put_by, taken_by};

use crate::ending::{EndsLeft, end_all};
use crate::late::take_late;
use crate::{Clients, ClientsHere};
use std::sync::Wait;
use std::thread::Threads;
use trick_outside::{Door, Spawner};
use trick_serve_door::{Ends, Taken, finish_accepting};
use trick_serve_source::{Finished, ServedHere};

/// The door and the spawner of a run whose clients are closed.
#[derive(Drop)]
pub struct Closed<D, S> {
    /// It has the links of all its clients again.
    pub door: D,
    pub spawner: S,
    /// There was no memory for the messages to a client, and its session does not leave for that: it was found only
    /// after the last turn.
    pub lacked: bool,
}

// Ends the sessions of a run whose acceptor is over: first those with seats, and then those of clients that came late.
fn end_clients<D: Door + Drop, S: Spawner + Drop, R: Wait>(
    rt: &R,
    finished: Finished<D::In, D::Out>,
    late: Vec<Ends>,
    taken: Taken<D, S>,
) -> Closed<D, S>
where
    D::In: Drop,
    D::Out: Drop,
    requires { (start : Start D D.In D.Out S) × (v : View)
        × AreOver (hosts D.visited D.In.LinkIn D.Out.LinkOut S.failures D.has_client) start v finished late.items
        taken }
    ensures { (start : Start D D.In D.Out S) (v : View)
        → AreOver (hosts D.visited D.In.LinkIn D.Out.LinkOut S.failures D.has_client) start v finished late.items taken
        → HasTended (hosts D.visited D.In.LinkIn D.Out.LinkOut S.failures D.has_client) start.door start.spawner v
        result }
{
    let Finished {
        seats,
        mut coming,
        gone,
    } = finished;
    let Taken {
        mut door,
        spawner,
        coming: told,
        gone: mut heard,
        sessions,
    } = taken;
    coming.join(told);
    heard.join(gone);
    let lacked = end_all(rt, &mut door, EndsLeft::new(seats, late), sessions);
    Closed {
        door,
        spawner,
        lacked,
    }
}

/// Closes the clients of a run that is over: no more are taken; all queues are closed, and all threads taken in, of
/// each client the writer before the reader. Then the sessions are ended in the order of their numbers, which are those
/// of the seats and then those of clients that came as the run ended: what a writer left is written, the link is hung
/// up, and the links go back to the door. Takes no memory.
pub fn close_clients<
    D: Door + Drop,
    S: Spawner + Drop,
    R: Threads + Wait + Copy + Send + Drop + 'static,
>(rt: &R, clients: Clients<D, S, R>) -> Closed<D, S>
where
    D::In: Send + Drop + 'static,
    D::Out: Send + Drop + 'static,
    requires begun { HasBegun (hosts D.visited D.In.LinkIn D.Out.LinkOut S.failures D.has_client)
        clients.begun.value clients.acceptor (λ thread. thread.promise.work.value) }
    requires way { AreEnds clients.begun.value.coming clients.served.coming }
    requires told { put_by clients.begun.value.coming ≡ [] }
    requires back { AreEnds clients.served.gone clients.begun.value.gone }
    requires unheard { taken_by clients.begun.value.gone ≡ [] }
    ensures { HasTended (hosts D.visited D.In.LinkIn D.Out.LinkOut S.failures D.has_client)
        clients.begun.value.door clients.begun.value.spawner (view_of clients.served) result }
{
    let Clients {
        served,
        acceptor,
        room,
        ..
    } = clients;
    let mut finished = served.finish();
    let late = take_late(rt, room, &mut finished.coming);
    let taken = finish_accepting(rt, acceptor);
    end_clients(rt, finished, late, taken)
}

/// Closes the clients of a run that is over and whose caller asked the door himself, as `close_clients` does. There is
/// no thread to be taken in.
pub fn close_here<D: Door + Drop, S: Spawner + Drop, R: Wait + Copy + Drop>(
    rt: &R,
    clients: ClientsHere<D, S, R>,
) -> Closed<D, S>
where
    D::In: Drop,
    D::Out: Drop,
    requires asking { IsAsking (hosts D.visited D.In.LinkIn D.Out.LinkOut S.failures D.has_client)
        (start_with clients.begun.value) clients.served.asking }
    requires way { AreEnds clients.begun.value.coming clients.served.served.coming }
    requires told { put_by clients.begun.value.coming ≡ [] }
    requires back { AreEnds clients.served.served.gone clients.begun.value.gone }
    requires unheard { taken_by clients.begun.value.gone ≡ [] }
    ensures { HasTended (hosts D.visited D.In.LinkIn D.Out.LinkOut S.failures D.has_client)
        clients.begun.value.door clients.begun.value.spawner (view_of clients.served.served) result }
{
    let ClientsHere {
        served: source,
        room,
        ..
    } = clients;
    let ServedHere { served, asking } = source;
    let mut finished = served.finish();
    let taken = asking.finish();
    let late = take_late(rt, room, &mut finished.coming);
    end_clients(rt, finished, late, taken)
}
