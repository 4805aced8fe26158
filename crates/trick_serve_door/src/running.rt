//! An acceptor in a thread of its own, and what is known of its result.

ghost use Rattle.std.specs.Prelude.{◌≡◌};

use crate::{Accepting, Taken};
use std::snapshot::Snapshot;
use std::thread::{Promise, PromisedHandle};
use trick_outside::{Door, Spawner};

/// What a thread made of its work.
#[derive(Drop)]
pub enum Outcome<W, T> {
    /// The result.
    Done(T),
    /// The work as it was. Only a work whose thread was refused is given back so.
    Back(W),
}

/// An acceptor that was started. It is to be finished: a thread that nobody waits for may be cut off at the end of the
/// program.
#[derive(Drop)]
pub enum RunningAcceptor<H, T> {
    /// It runs in a thread of its own, or did.
    There(H),
    /// It is done, and this is its result.
    Here(T),
}

/// The promise of an acceptor in a thread, which remembers the work as it was when it was started.
#[derive(Drop)]
pub struct Accepts<D: Door + Drop, S: Drop, R: Drop>
where
    D::In: Drop,
    D::Out: Drop,
{
    pub work: Snapshot<Accepting<D, S, R>>,
}

impl<D: Door + Drop, S: Spawner + Drop, R: Drop> Promise<Outcome<Accepting<D, S, R>, Taken<D, S>>>
    for Accepts<D, S, R>
where
    D::In: Drop,
    D::Out: Drop,
{
    ghost use Rattle.std.specs.Prelude.{◌≡◌};
    ghost use Rattle.trick_serve_seats.specs.Accepted.{HasAccepted};
    ghost use Rattle.trick_serve_seats.specs.Taking.{hosts, start_of};
    ghost use Rattle.trick_serve_door.specs.Running.{MatchOutcome};

    ghost kept_by = { λ promise outcome. MatchOutcome outcome
        (λ taken. HasAccepted (hosts D.visited D.In.LinkIn D.Out.LinkOut S.failures D.has_client)
        (start_of promise.work.value.door promise.work.value.spawner
        promise.work.value.coming promise.work.value.gone)
        taken.door taken.spawner taken.coming taken.gone taken.sessions.items)
        (λ work. work ≡ promise.work.value) };
}

/// The thread of an acceptor.
pub type AcceptorThread<D, S, R> = PromisedHandle<
    Outcome<Accepting<D, S, R>, Taken<D, S>>,
    Accepts<D, S, R>,
>;
