//! How the door is asked for the clients.

ghost use Rattle.std.specs.Prelude.{◌≡◌, ◌<◌, ◌+◌, ◌≤◌, [], IfOk, IfSome, OnOk, true, vec_capacity, vec_len};
ghost use Rattle.trick_serve_seats.specs.Departures.{is_over};
ghost use Rattle.trick_serve_seats.specs.Seats.{AreFresh, IsPast, IsSeated};
ghost use Rattle.trick_serve_seats.specs.Taking.{HasAdded, HasAnswered, HasAsked, HasClosed, HasLooked};
ghost use Rattle.trick_serve_seats.specs.Taking.{HasPlaced, HasRoom, HasTaken, HasToldEnd, HasToldNobody};
ghost use Rattle.trick_serve_seats.specs.Taking.{IsTaking, IsUnused, Start, hosts};
ghost use Rattle.trick_wire.specs.Ends.{taken_by};

use crate::acceptor::{Sessions, Teller};
use crate::places::Places;
use crate::queues::Queues;
use crate::seat::{Seated, seat, turn_away};
use crate::{Arrival, Comes, Departure, Past};
use std::alloc::{AllocError, Global};
use std::sync::Wait;
use std::thread::Threads;
use trick_outside::{Came, Door, LinkIn, LinkOut, Spawner};
use trick_wire::Taker;

/// Why the door is asked no more.
#[derive(Clone, Copy)]
pub enum End {
    /// It ended or failed, or the last number was given.
    Over,
    /// There was no memory for the next client.
    OutOfMemory,
    /// The run is over.
    Closed,
}

// What one call of the door came to.
#[derive(Drop)]
pub(crate) enum Answer<I, O> {
    // A client, as the two links to it.
    Client(I, O),
    // No client came yet.
    NotYet,
    // No client comes any more.
    End(End),
}

// Asks the door once.
pub(crate) fn ask_once<D: Door>(door: &mut D) -> Answer<D::In, D::Out>
    ensures { HasAnswered D.visited D.has_client door.old result door.new }
{
    match door.next() {
        Came::Client(input, output) => Answer::Client(input, output),
        Came::NotYet => Answer::NotYet,
        Came::Ended => Answer::End(End::Over),
        Came::Failed => Answer::End(End::Over),
        Came::OutOfMemory => Answer::End(End::OutOfMemory),
    }
}

/// What the acceptor has in hand while it takes clients, of each session one `T`.
#[derive(Drop)]
pub struct Acceptor<I, O, S, R, T> {
    pub rt: R,
    pub alloc: Global,
    pub spawner: S,
    pub teller: Teller<I, O>,
    pub places: Places,
    pub sessions: Sessions<T, I, O>,
    pub has_asked: bool,
}

impl<I: Drop, O: Drop, S: Drop, R: Wait + Copy + Drop, T: Drop> Acceptor<I, O, S, R, T> {
    /// It has asked for no client yet.
    pub fn new(
        rt: R,
        alloc: Global,
        spawner: S,
        teller: Teller<I, O>,
        gone: Taker<Departure>,
    ) -> Acceptor<I, O, S, R, T>
        ensures { IsUnused spawner teller.coming gone result }
    {
        Acceptor {
            rt,
            alloc,
            spawner,
            teller,
            places: Places::new(gone),
            sessions: Sessions::new(alloc),
            has_asked: false,
        }
    }

    // Adds the session of a client that came, and tells the caller.
    fn add(&mut self, session: T, arrival: Arrival<I, O>)
        requires free { 0 < self.old.places.free }
        requires room { vec_len self.old.sessions.seated + 1 ≤ vec_capacity self.old.sessions.past }
        requires place { vec_len self.old.sessions.seated < vec_capacity self.old.sessions.seated }
        requires number { vec_len self.old.sessions.seated < 4294967295 }
        ensures { HasAdded session arrival self.old self.new }
    {
        self.sessions.add(session);
        self.places.free -= 1;
        self.has_asked = true;
        self.teller.tell(&self.rt, Comes::Client(arrival));
    }

    // Tells once, after the first answer of the door, that no client had come.
    fn tell_nobody(&mut self)
        ensures { HasToldNobody self.old self.new }
    {
        if self.has_asked {
            return;
        }
        self.has_asked = true;
        self.teller.tell(&self.rt, Comes::Nobody);
    }

    /// Tells why no client comes any more, where the caller does not know.
    pub fn tell_end(&mut self, end: End)
        ensures { HasToldEnd end self.old self.new }
    {
        self.teller.tell_end(&self.rt, end);
    }

    /// Rests until the run is over, and tells that it is closed.
    pub fn close(&mut self)
        ensures { HasClosed self.old self.new }
    {
        self.places.wait_for_end(&self.rt);
        self.teller.tell(&self.rt, Comes::Closed);
    }

    // Whether the run is over, as far as the caller told it.
    fn is_over(&mut self) -> bool
        ensures placed { HasPlaced self.old self.new }
        ensures free { self.old.places.free ≤ self.new.places.free }
        ensures over { result ≡ true → is_over (taken_by self.new.places.gone) ≡ true }
    {
        let rt = self.rt;
        self.places.is_over(&rt)
    }

    // Makes room for one session more, and its queues, where they were not ready.
    fn prepare(&mut self, ready: Option<Queues>) -> Result<Queues, AllocError>
        ensures fresh { IfSome ready AreFresh → IfOk result AreFresh }
        ensures same { HasRoom self.old self.new }
        ensures room { OnOk result
            (vec_len self.new.sessions.seated + 1 ≤ vec_capacity self.new.sessions.past) }
        ensures place { OnOk result (vec_len self.new.sessions.seated < vec_capacity self.new.sessions.seated) }
    {
        self.sessions.reserve()?;
        match ready {
            Some(queues) => Ok(queues),
            None => Queues::new(self.alloc, &self.teller.bell),
        }
    }
}

// Takes a client: starts its threads, and tells the caller.
fn take<
    I: LinkIn + Send + Drop + 'static,
    O: LinkOut + Send + Drop + 'static,
    S: Spawner + Drop,
    R: Threads + Wait + Copy + Send + Drop + 'static,
>(acceptor: &mut Acceptor<I, O, S, R, Seated<I, O, R>>, queues: Queues, links: (I, O))
    requires fresh { AreFresh queues }
    requires free { 0 < acceptor.old.places.free }
    requires room { vec_len acceptor.old.sessions.seated + 1 ≤ vec_capacity acceptor.old.sessions.past }
    requires place { vec_len acceptor.old.sessions.seated < vec_capacity acceptor.old.sessions.seated }
    requires number { vec_len acceptor.old.sessions.seated < 4294967295 }
    ensures { HasTaken (IsSeated I.LinkIn O.LinkOut) S.failures links acceptor.old acceptor.new }
{
    let rt = acceptor.rt;
    let (seated, arrival) = seat(&rt, acceptor.alloc, &mut acceptor.spawner, queues, links);
    acceptor.add(seated, arrival);
}

// Takes a client to whom no thread is started, and tells the caller.
fn take_refused<I: LinkIn + Drop, O: LinkOut + Drop, S: Spawner + Drop, R: Wait + Copy + Drop>(
    acceptor: &mut Acceptor<I, O, S, R, Past<I, O>>,
    queues: Queues,
    links: (I, O),
)
    requires free { 0 < acceptor.old.places.free }
    requires room { vec_len acceptor.old.sessions.seated + 1 ≤ vec_capacity acceptor.old.sessions.past }
    requires place { vec_len acceptor.old.sessions.seated < vec_capacity acceptor.old.sessions.seated }
    requires number { vec_len acceptor.old.sessions.seated < 4294967295 }
    ensures { AreFresh queues → HasTaken (IsPast I.LinkIn O.LinkOut) S.failures links acceptor.old acceptor.new }
{
    let (past, arrival) = turn_away(&mut acceptor.spawner, queues, links);
    acceptor.add(past, arrival);
}

/// Asks the door until it gives a client, which is then seated, or gives none any more. There has to be a free place.
pub fn ask<D: Door, S: Spawner + Drop, R: Threads + Wait + Copy + Send + Drop + 'static>(
    door: &mut D,
    acceptor: &mut Acceptor<D::In, D::Out, S, R, Seated<D::In, D::Out, R>>,
) -> Option<End>
where
    D::In: Send + Drop + 'static,
    D::Out: Send + Drop + 'static,
    requires free { 0 < acceptor.old.places.free }
    requires number { vec_len acceptor.old.sessions.seated < 4294967295 }
    ensures { (start : Start D D.In D.Out S)
        → IsTaking (hosts D.visited D.In.LinkIn D.Out.LinkOut S.failures D.has_client)
        (IsSeated D.In.LinkIn D.Out.LinkOut) start [] door.old acceptor.old
        → HasAsked (hosts D.visited D.In.LinkIn D.Out.LinkOut S.failures D.has_client)
        (IsSeated D.In.LinkIn D.Out.LinkOut) start result door.new acceptor.new }
{
    let Ok(queues) = acceptor.prepare(None) else {
        return Some(End::OutOfMemory);
    };
    let rt = acceptor.rt;
    for _ in rt.forever() {
        if acceptor.is_over() {
            return Some(End::Closed);
        }
        match ask_once(door) {
            Answer::Client(input, output) => {
                take(acceptor, queues, (input, output));
                return None;
            }
            Answer::NotYet => acceptor.tell_nobody(),
            Answer::End(end) => return Some(end),
        }
    }
    unreachable!()
}

/// Asks the door once, where a place and a number are free. No thread is started for a client that comes. What is ready
/// for the next client stays so.
pub fn look<D: Door, S: Spawner + Drop, R: Wait + Copy + Drop>(
    door: &mut D,
    acceptor: &mut Acceptor<D::In, D::Out, S, R, Past<D::In, D::Out>>,
    ready: Option<Queues>,
) -> Result<Option<Queues>, End>
where
    D::In: Drop,
    D::Out: Drop,
    ensures ready { IfSome ready AreFresh → IfOk result (λ left. IfSome left AreFresh) }
    ensures asked { (start : Start D D.In D.Out S)
        → IfSome ready AreFresh
        → IsTaking (hosts D.visited D.In.LinkIn D.Out.LinkOut S.failures D.has_client)
        (IsPast D.In.LinkIn D.Out.LinkOut) start [] door.old acceptor.old
        → HasLooked (hosts D.visited D.In.LinkIn D.Out.LinkOut S.failures D.has_client)
        (IsPast D.In.LinkIn D.Out.LinkOut) start result door.new acceptor.new }
{
    if acceptor.sessions.is_full() {
        return Err(End::Over);
    }
    if acceptor.is_over() {
        return Err(End::Closed);
    }
    if acceptor.places.free == 0 {
        return Ok(ready);
    }
    let Ok(queues) = acceptor.prepare(ready) else {
        return Err(End::OutOfMemory);
    };
    match ask_once(door) {
        Answer::Client(input, output) => {
            take_refused(acceptor, queues, (input, output));
            Ok(None)
        }
        Answer::NotYet => {
            acceptor.tell_nobody();
            Ok(Some(queues))
        }
        Answer::End(end) => Err(end),
    }
}
