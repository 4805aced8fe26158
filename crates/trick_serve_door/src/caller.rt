//! How a caller asks the door himself.

ghost use Rattle.trick_serve_seats.specs.Accepted.{HasAccepted};
ghost use Rattle.trick_serve_door.specs.Asking.{IsAsking, KeepsAsking};
ghost use Rattle.trick_serve_seats.specs.Taking.{Start, hosts, start_of};

use crate::Asking;
use crate::taking::{Accepting, Taken};
use std::sync::Wait;
use trick_outside::{Door, Spawner};
use trick_serve_seats::{Acceptor, Teller, look};

impl<D: Door + Drop, S: Spawner + Drop, R: Wait + Copy + Drop> Asking<D, S, R>
where
    D::In: Drop,
    D::Out: Drop,
{
    /// The door was not asked yet, and nothing was told.
    pub fn begin(work: Accepting<D, S, R>) -> Asking<D, S, R>
        ensures { IsAsking (hosts D.visited D.In.LinkIn D.Out.LinkOut S.failures D.has_client)
            (start_of work.door work.spawner work.coming work.gone) result }
    {
        let Accepting {
            rt,
            alloc,
            door,
            spawner,
            coming,
            gone,
            bell,
        } = work;
        Asking {
            door,
            acceptor: Acceptor::new(rt, alloc, spawner, Teller { coming, bell }, gone),
            ready: None,
            end: None,
        }
    }

    /// Takes what the caller told of the sessions that left, and asks the door once at most: not while 64 sessions
    /// live, not after its end or the last number, and not where the run is over. Tells what came as an acceptor does,
    /// each client as refused, of which the spawner's count rose. It takes memory only for the queues of the next
    /// client, where a client took those before.
    pub fn ask(&mut self)
        ensures { KeepsAsking (hosts D.visited D.In.LinkIn D.Out.LinkOut S.failures D.has_client) self.old self.new }
    {
        if self.end.is_some() {
            return;
        }
        let ready = self.ready.take();
        match look(&mut self.door, &mut self.acceptor, ready) {
            Ok(left) => self.ready = left,
            Err(end) => {
                self.acceptor.tell_end(end);
                self.end = Some(end);
            }
        }
    }

    /// Rests until the caller told that the run is over, which it has to have done before, and tells that it is closed.
    pub fn finish(self) -> Taken<D, S>
        ensures { (start : Start D D.In D.Out S)
            → IsAsking (hosts D.visited D.In.LinkIn D.Out.LinkOut S.failures D.has_client) start self
            → HasAccepted (hosts D.visited D.In.LinkIn D.Out.LinkOut S.failures D.has_client) start
            result.door result.spawner result.coming result.gone result.sessions.items }
    {
        let Asking { door, acceptor, .. } = self;
        let mut acceptor = acceptor;
        acceptor.close();
        let Acceptor {
            spawner,
            teller,
            places,
            sessions,
            ..
        } = acceptor;
        Taken {
            door,
            spawner,
            coming: teller.coming,
            gone: places.gone,
            sessions: sessions.seated,
        }
    }
}
