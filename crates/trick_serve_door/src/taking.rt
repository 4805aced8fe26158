//! The acceptor, from its start to the end of the run.

ghost use Rattle.std.specs.Prelude.{[]};
ghost use Rattle.trick_serve_seats.specs.Accepted.{HasAccepted};
ghost use Rattle.trick_serve_seats.specs.Seats.{IsSeated};
ghost use Rattle.trick_serve_seats.specs.Taking.{HasEnded, IsTaking, Start, hosts, start_of};

use std::alloc::Global;
use std::sync::{Arc, Wait};
use std::thread::Threads;
use trick_outside::{Door, Spawner};
use trick_serve_seats::{Acceptor, Comes, Departure, End, Past, Seated, Teller, ask, take_all_in};
use trick_turn::Bell;
use trick_wire::{Putter, Taker};

/// What an acceptor works with, and how it reaches its caller.
#[derive(Drop)]
pub struct Accepting<D: Door + Drop, S: Drop, R: Drop>
where
    D::In: Drop,
    D::Out: Drop,
{
    pub rt: R,
    pub alloc: Global,
    /// What gives the clients.
    pub door: D,
    /// What admits their threads.
    pub spawner: S,
    /// To the caller: what comes. It has to have room for 66 at least, else the acceptor rests where it is full.
    pub coming: Putter<Comes<D::In, D::Out>>,
    /// From the caller: which sessions left, and that the run is over.
    pub gone: Taker<Departure>,
    /// The bell of the caller, which is rung after each line, each cause of a stop, and whatever comes.
    pub bell: Arc<Bell>,
}

/// What an acceptor gives back.
#[derive(Drop)]
pub struct Taken<D: Door + Drop, S: Drop>
where
    D::In: Drop,
    D::Out: Drop,
{
    pub door: D,
    pub spawner: S,
    pub coming: Putter<Comes<D::In, D::Out>>,
    pub gone: Taker<Departure>,
    /// What the threads of client n handed back stands at place n - 1.
    pub sessions: Vec<Past<D::In, D::Out>>,
}

// Asks the door for clients, while there are places and numbers for them.
fn take_clients<D: Door, S: Spawner + Drop, R: Threads + Wait + Copy + Send + Drop + 'static>(
    door: &mut D,
    acceptor: &mut Acceptor<D::In, D::Out, S, R, Seated<D::In, D::Out, R>>,
) -> End
where
    D::In: Send + Drop + 'static,
    D::Out: Send + Drop + 'static,
    ensures { (start : Start D D.In D.Out S)
        → IsTaking (hosts D.visited D.In.LinkIn D.Out.LinkOut S.failures D.has_client)
        (IsSeated D.In.LinkIn D.Out.LinkOut) start [] door.old acceptor.old
        → HasEnded (hosts D.visited D.In.LinkIn D.Out.LinkOut S.failures D.has_client)
        (IsSeated D.In.LinkIn D.Out.LinkOut) start result door.new acceptor.new }
{
    let rt = acceptor.rt;
    for _ in rt.forever() {
        if acceptor.sessions.is_full() {
            return End::Over;
        }
        if !acceptor.places.wait(&rt) {
            return End::Closed;
        }
        if let Some(end) = ask(door, acceptor) {
            return end;
        }
    }
    unreachable!()
}

/// Takes the clients of a door, while fewer than 64 live and until the door ends or fails, client 4294967295
/// was taken, memory lacks or the caller tells that the run is over. Each gets a writer and a reader, and the caller is
/// told. It then rests until the run is over, tells that, and takes all threads in, the writer of a session before its
/// reader.
///
/// The caller has to close the inbox and the outbox of each client that it was told of: else a writer rests on.
pub fn accept<D: Door + Drop, S: Spawner + Drop, R: Threads + Wait + Copy + Send + Drop + 'static>(
    work: Accepting<D, S, R>,
) -> Taken<D, S>
where
    D::In: Send + Drop + 'static,
    D::Out: Send + Drop + 'static,
    ensures { HasAccepted (hosts D.visited D.In.LinkIn D.Out.LinkOut S.failures D.has_client)
        (start_of work.door work.spawner work.coming work.gone)
        result.door result.spawner result.coming result.gone result.sessions.items }
{
    let Accepting {
        rt,
        alloc,
        mut door,
        spawner,
        coming,
        gone,
        bell,
    } = work;
    let mut acceptor = Acceptor::new(rt, alloc, spawner, Teller { coming, bell }, gone);
    let end = take_clients(&mut door, &mut acceptor);
    acceptor.tell_end(end);
    acceptor.close();
    let Acceptor {
        spawner,
        teller,
        places,
        sessions,
        ..
    } = acceptor;
    let sessions = take_all_in(&rt, sessions);
    Taken {
        door,
        spawner,
        coming: teller.coming,
        gone: places.gone,
        sessions,
    }
}
