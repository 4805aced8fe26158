//! A turn: the value, until it is released.
use crate::keeps::{Adds, Keeps};
use crate::lock::TurnLock;
use crate::pass::Pass;

/// The turn of a lock, which a pass has: while there is one, no other pass of that lock has the value. It must be spent
/// by `release`.
pub struct Turn<'a, B: Keeps> {
    pub(crate) lock: &'a TurnLock<B>,
    pub(crate) pass: &'a mut Pass<B>,
    pub(crate) value: B,
}

impl<'a, B: Keeps> Turn<'a, B> {
    ghost use Rattle.std.specs.Prelude.{◌≡◌, ◌++◌, IfSome};
    ghost use Rattle.std.specs.Borrow.{sem};
    ghost use Rattle.trick_turn.specs.Views.{entries_told};
    ghost use Rattle.trick_turn.specs.Passes.{Releases, number_of, seen};
    ghost use Rattle.trick_turn.specs.Turns.{IsTurn, LendsValue, pass_of, pass_left, value_of};

    /// Lends the value. What is written to it stays in the turn.
    pub fn value(&mut self) -> &mut B
        ensures* writes_back { sem 𝓛 (LendsValue B.row B.Entry.row B.Keeps self.entry result) }
        ensures value { result.now ≡ value_of self.old }
    {
        &mut self.value
    }

    /// Ends the turn. `E` tells what the turn adds to the history: nothing, or one entry, which names this pass.
    pub fn release<E: Adds<B::Entry>>(self)
        requires turn { IsTurn self }
        requires names { IfSome E.tells (λ e. B.seat e ≡ number_of (pass_of self)) }
        requires stands { B.stands (value_of self) (seen (pass_of self) ++ entries_told E.tells) }
        ensures { Releases E.tells (pass_of self.entry) (pass_left self.exit) }
    {
        let Turn { lock, pass, value } = self;
        lock.release::<E>(pass, value);
    }
}
