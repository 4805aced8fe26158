//! A pass: the right to claim a turn.
ghost use Rattle.std.specs.Prelude.{◌≡◌, ◌≢◌};

use crate::claim::Claim;
use crate::keeps::Keeps;
use crate::lock::TurnLock;
use crate::turn::Turn;
use crate::view::View;
use atomic_table::Seat;
use std::sync::Wait;

/// A seat with its number, which a claim stores into the word.
pub(crate) struct NumberedSeat<B, E> {
    pub(crate) inner: Seat<Option<B>, View<E>>,
    pub(crate) number: u64,
    ghost numbered: { (number ≡ inner.me.0.number) × (number ≢ 0) },
}

impl<B, E> NumberedSeat<B, E> {
    pub(crate) fn into_inner(self) -> Seat<Option<B>, View<E>>
        ensures { result ≡ self.inner }
    {
        let Self { inner, number: _ } = self;
        inner
    }
}

impl<B, E> Drop for NumberedSeat<B, E> {
    fn drop(self) {
        let Self {
            inner: _inner,
            number: _,
        } = self;
    }
}

/// The right to claim a turn of the one lock that made it. It may cross threads.
///
/// It keeps what it has seen of the history, what its own turns added, how often it found the turn held, and the number
/// that it found last. Only proofs see these.
pub struct Pass<B: Keeps> {
    pub(crate) seat: NumberedSeat<B, B::Entry>,
}

impl<B: Keeps> Drop for Pass<B> {
    fn drop(self) {
        let Self { seat: _seat } = self;
    }
}

impl<B: Keeps> Pass<B> {
    ghost use Rattle.std.specs.Borrow.{sem};
    ghost use Rattle.trick_turn.specs.Passes.{IsPassOf, Rests, Claims, Waits, number_of};
    ghost use Rattle.trick_turn.specs.Turns.{IsTurnOf, IfGot, LendsPass, pass_of, value_of};

    /// Its number, from 1: the word of the lock is this number while the pass has the turn.
    pub fn number(&self) -> u64
        ensures { result ≡ number_of self.now }
    {
        self.seat.number
    }

    /// Claims the turn of its lock if it is free, by one exchange of the word. It waits for nobody.
    pub fn try_claim<'a>(&'a mut self, lock: &'a TurnLock<B>) -> Claim<'a, B>
        requires own { IsPassOf lock.now self.old }
        requires rests { Rests self.old }
        ensures* busy { sem 𝓛 (LendsPass B.row B.Entry.row self.entry result) }
        ensures turn { IfGot result (IsTurnOf lock.now self.entry.ghost_name) }
        ensures got { IfGot result (λ t. Claims B.stands B.seat self.old (pass_of t) (value_of t)) }
    {
        match lock.take_out(self) {
            Ok(value) => Claim::Got(Turn {
                lock,
                pass: self,
                value,
            }),
            Err(found) => Claim::Busy { found },
        }
    }

    /// Claims the turn of its lock, and waits until it is free.
    pub fn claim<'a, R: Wait>(&'a mut self, rt: &R, lock: &'a TurnLock<B>) -> Turn<'a, B>
        requires own { IsPassOf lock.now self.old }
        requires rests { Rests self.old }
        ensures turn { IsTurnOf lock.now self.entry.ghost_name result }
        ensures got { Waits B.stands B.seat self.old (pass_of result) (value_of result) }
    {
        let value = lock.wait(rt, self);
        Turn {
            lock,
            pass: self,
            value,
        }
    }

    pub(crate) fn into_inner(self) -> Seat<Option<B>, View<B::Entry>>
        ensures { result ≡ self.seat.inner }
    {
        let Self { seat } = self;
        seat.into_inner()
    }
}
