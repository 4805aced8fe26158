//! How an acceptor in a thread is waited for.

ghost use Rattle.std.specs.Prelude.{◌≡◌};
ghost use Rattle.trick_serve_seats.specs.Accepted.{HasAccepted};
ghost use Rattle.trick_serve_seats.specs.Taking.{hosts, start_of};
ghost use Rattle.trick_serve_door.specs.Running.{MatchRunning};

use crate::{AcceptorThread, Outcome, RunningAcceptor, Taken, accept};
use std::sync::Wait;
use std::thread::Threads;
use trick_outside::{Door, Spawner};

/// Waits for an acceptor, and hands on what it gives back: what an acceptor has done that began with this work. The
/// caller has to have told it that the run is over, and closed the inbox and the outbox of each client: else it waits
/// on.
pub fn finish_accepting<
    D: Door + Drop,
    S: Spawner + Drop,
    R: Threads + Wait + Copy + Send + Drop + 'static,
>(rt: &R, running: RunningAcceptor<AcceptorThread<D, S, R>, Taken<D, S>>) -> Taken<D, S>
where
    D::In: Send + Drop + 'static,
    D::Out: Send + Drop + 'static,
    ensures { MatchRunning running
        (λ thread. HasAccepted (hosts D.visited D.In.LinkIn D.Out.LinkOut S.failures D.has_client)
        (start_of thread.promise.work.value.door thread.promise.work.value.spawner
        thread.promise.work.value.coming thread.promise.work.value.gone)
        result.door result.spawner result.coming result.gone result.sessions.items)
        (λ taken. result ≡ taken) }
{
    match running {
        RunningAcceptor::There(child) => match child.join(rt) {
            Outcome::Done(taken) => taken,
            Outcome::Back(work) => accept(work),
        },
        RunningAcceptor::Here(taken) => taken,
    }
}
