//! How the clients of a run are opened.

ghost use Rattle.std.specs.Prelude.{◌≡◌, IfOk};
ghost use Rattle.trick_serve_clients.specs.Opened.{AreUnused, IsOpenedBy, start_with};
ghost use Rattle.trick_serve_door.specs.Asking.{IsAsking};
ghost use Rattle.trick_serve_seats.specs.Taking.{hosts};

use crate::late::Room;
use std::alloc::{AllocError, Global};
use std::snapshot::Snapshot;
use std::sync::{Arc, Wait};
use std::thread::Threads;
use trick_outside::{Door, Spawner};
use trick_serve_door::{
    Accepting, AcceptorThread, Asking, Comes, Departure, RunningAcceptor, Taken, start_accepting,
};
use trick_serve_source::{Served, ServedHere};
use trick_turn::Bell;
use trick_wire::{Putter, Taker, channel};

/// For how many things there is room on the way from the acceptor: 64 clients live at once, and the end is told twice.
const COMING: usize = 66;

/// For how many things there is room on the way to the acceptor: 64 sessions leave at most, and then the run is over.
const GONE: usize = 65;

// Both ends of the two queues between a run and its acceptor, and the bell of the run, once for each of them.
#[derive(Drop)]
pub(crate) struct Ways<I, O> {
    pub(crate) tells: Putter<Comes<I, O>>,
    pub(crate) coming: Taker<Comes<I, O>>,
    pub(crate) gone: Putter<Departure>,
    pub(crate) hears: Taker<Departure>,
    pub(crate) bell: Arc<Bell>,
    pub(crate) their_bell: Arc<Bell>,
}

impl<I: Drop, O: Drop> Ways<I, O> {
    // The queues, in which nothing is yet.
    fn new(alloc: Global) -> Result<Ways<I, O>, AllocError>
        ensures { IfOk result AreUnused }
    {
        let (tells, coming) = channel(alloc, COMING)?;
        let (gone, hears) = channel(alloc, GONE)?;
        let bell = Arc::new(alloc, Bell::new())?;
        let their_bell = Arc::try_clone(&bell)?;
        Ok(Ways {
            tells,
            coming,
            gone,
            hears,
            bell,
            their_bell,
        })
    }
}

/// The clients of a run while it goes on. They are to be closed by `close_clients`.
#[derive(Drop)]
pub struct Clients<D: Door + Drop, S: Spawner + Drop, R: Drop>
where
    D::In: Drop,
    D::Out: Drop,
{
    /// The source of entries, which is lent to the run.
    pub served: Served<D::In, D::Out, R>,
    /// The acceptor, which takes clients in a thread of its own.
    pub acceptor: RunningAcceptor<AcceptorThread<D, S, R>, Taken<D, S>>,
    /// With what the acceptor began, but that its spawner had not been asked yet.
    pub begun: Snapshot<Accepting<D, S, R>>,
    // For clients that come as the run ends.
    pub(crate) room: Room,
}

/// The clients of a run while it goes on, whose acceptor was refused a thread. They are to be closed by `close_here`.
#[derive(Drop)]
pub struct ClientsHere<D: Door + Drop, S: Spawner + Drop, R: Drop>
where
    D::In: Drop,
    D::Out: Drop,
{
    /// The source of entries, which is lent to the run, and asks the door for clients.
    pub served: ServedHere<D, S, R>,
    /// With what the door is asked, as it was before it was asked the first time. The count of the spawner had risen.
    pub begun: Snapshot<Accepting<D, S, R>>,
    // For clients that come as the run ends.
    pub(crate) room: Room,
}

/// How the clients of a run were opened.
#[derive(Drop)]
pub enum Opened<D: Door + Drop, S: Spawner + Drop, R: Drop>
where
    D::In: Drop,
    D::Out: Drop,
{
    /// Clients may come, and an acceptor takes them.
    Open(Clients<D, S, R>),
    /// The acceptor was refused a thread. Clients may come, as the source of entries asks for them.
    Here(ClientsHere<D, S, R>),
    /// There was no memory. The door and the spawner are as they were.
    OutOfMemory(D, S),
}

// Has the door asked by the source of entries, which has no client yet.
fn ask_here<D: Door + Drop, S: Spawner + Drop, R: Wait + Copy + Drop>(
    served: Served<D::In, D::Out, R>,
    work: Accepting<D, S, R>,
    room: Room,
) -> ClientsHere<D, S, R>
where
    D::In: Drop,
    D::Out: Drop,
    ensures served { result.served.served ≡ served }
    ensures begun { result.begun.value ≡ work }
    ensures asking { IsAsking (hosts D.visited D.In.LinkIn D.Out.LinkOut S.failures D.has_client)
        (start_with work) result.served.asking }
{
    let begun = Snapshot::of(&work);
    let asking = Asking::begin(work);
    ClientsHere {
        served: ServedHere { served, asking },
        begun,
        room,
    }
}

/// Opens the clients of a run: from then on an acceptor in a thread of its own takes those that come to the door, and
/// its spawner admits their threads. Where it was refused a thread, the source of entries asks the door itself, and no
/// thread is started for a client. Where there is no memory nothing was done.
pub fn open_clients<
    D: Door + Send + Drop + 'static,
    S: Spawner + Send + Drop + 'static,
    R: Threads + Wait + Copy + Send + Drop + 'static,
>(rt: R, alloc: Global, door: D, spawner: S) -> Opened<D, S, R>
where
    D::In: Send + Drop + 'static,
    D::Out: Send + Drop + 'static,
    ensures { IsOpenedBy (hosts D.visited D.In.LinkIn D.Out.LinkOut S.failures D.has_client) door spawner result }
{
    let Ok(ways) = Ways::new(alloc) else {
        return Opened::OutOfMemory(door, spawner);
    };
    let Ok(room) = Room::new(alloc) else {
        return Opened::OutOfMemory(door, spawner);
    };
    let Ways {
        tells,
        coming,
        gone,
        hears,
        bell,
        their_bell,
    } = ways;
    let served = Served::new(rt, alloc, bell, coming, gone);
    let work = Accepting {
        rt,
        alloc,
        door,
        spawner,
        coming: tells,
        gone: hears,
        bell: their_bell,
    };
    let begun = Snapshot::of(&work);
    match start_accepting(work) {
        Ok(acceptor) => Opened::Open(Clients {
            served,
            acceptor,
            begun,
            room,
        }),
        Err(work) => Opened::Here(ask_here(served, work, room)),
    }
}
