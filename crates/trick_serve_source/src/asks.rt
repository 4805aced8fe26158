//! Who brings the clients of a source of entries.

ghost use Rattle.trick_serve_door.specs.Asking.{KeepsAsking};
ghost use Rattle.trick_serve_seats.specs.Taking.{hosts};

use std::sync::Wait;
use trick_outside::{Door, Spawner};
use trick_serve_door::Asking;
use trick_turn::Bell;

/// Who brings the clients of a source of entries: an acceptor in a thread, or the caller, who asks the door.
pub(crate) trait Asks {
    /// On the way from the first value to the second it asked for clients, and did nothing else.
    ghost keeps: { Self → Self → Type 0 };

    /// Asks for a client, where nobody else does.
    fn ask(&mut self)
        ensures { keeps self.old self.new };

    /// Waits until something may have come since the mark of the bell was taken.
    fn rest<R: Wait>(&self, rt: &R, bell: &Bell, mark: u64);

    /// From a value to itself nothing is asked.
    ghost keeps_none: { (asks : Self) → keeps asks asks };

    /// Steps join.
    ghost keeps_join: { (first second third : Self) → keeps first second → keeps second third → keeps first third };
}

/// An acceptor in a thread of its own, which rings the bell after whatever comes.
#[derive(Drop)]
pub(crate) struct Brought;

impl Asks for Brought {
    ghost keeps = { λ old new. Unit {0} };

    fn ask(&mut self) {}

    fn rest<R: Wait>(&self, rt: &R, bell: &Bell, mark: u64) {
        bell.rest(rt, mark);
    }

    ghost keeps_none = { λ asks. tt };

    ghost keeps_join = { λ first second third one two. tt };
}

impl<D: Door + Drop, S: Spawner + Drop, Q: Wait + Copy + Drop> Asks for Asking<D, S, Q>
where
    D::In: Drop,
    D::Out: Drop,
{
    ghost keeps = { λ old new. KeepsAsking (hosts D.visited D.In.LinkIn D.Out.LinkOut S.failures D.has_client) old new };

    fn ask(&mut self) {
        Asking::ask(self);
    }

    // the door waits for a while, and nobody rings a bell
    fn rest<R: Wait>(&self, _rt: &R, _bell: &Bell, _mark: u64) {}

    ghost keeps_none = { λ asks start is. is };

    ghost keeps_join = { λ first second third one two start is. two start (one start is) };
}
