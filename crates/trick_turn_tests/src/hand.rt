//! A hand, which stores numbers into the board's memory.
ghost use Rattle.std.specs.Prelude.{◌≡◌, ◌++◌, ◌∷◌, [], Some};
ghost use Rattle.std.specs.Option.{option_map};
ghost use Rattle.std.specs.Arc.{arc_value};
ghost use Rattle.trick_turn.specs.Passes.{IsPassOf, Rests, Releases, number_of, seen};
ghost use Rattle.trick_turn.specs.Turns.{IsTurn, pass_of, pass_left, value_of};
ghost use Rattle.trick_turn_tests.specs.Histories.{Stands};

use crate::board::{Board, Entry};
use crate::cells::Cells;
use std::alloc::{AllocError, Global};
use std::marker::Brand;
use std::sync::{Arc, Wait};
use trick_turn::{Adds, Claim, Nothing, Pass, Turn, TurnLock};

/// What a store did.
#[derive(Drop)]
pub enum Stored {
    /// The number was stored.
    Done,
    /// The board is closed.
    Closed,
    /// The pass with this number had the turn.
    Busy { found: u64 },
}

/// Another pass of a lock, with the lock.
#[derive(Drop)]
pub struct Hand<M: Cells + Drop> {
    pub(crate) lock: Arc<TurnLock<Board<M>>, Global>,
    pub pass: Pass<Board<M>>,
    pub ghost of_lock: { IsPassOf (arc_value lock) pass },
    pub ghost rests: { Rests pass },
}

// Ends a turn that stored a number. `T` tells it.
fn tell_store<M: Cells + Drop, T: Adds<Entry>>(
    turn: Turn<'_, Board<M>>,
    seat: u64,
    cell: usize,
    number: u64,
)
    requires turn { IsTurn turn }
    requires seat { seat ≡ number_of (pass_of turn) }
    requires tells { T.tells ≡ Some (Entry.Store seat cell number) }
    requires stands { Stands (option_map M.numbers (value_of turn))
        (seen (pass_of turn) ++ Entry.Store seat cell number ∷ []) }
    ensures { Releases (Some (Entry.Store seat cell number))
        (pass_of turn.entry) (pass_left turn.exit) }
{
    turn.release::<T>();
}

impl<M: Cells + Drop> Hand<M> {
    ghost use Rattle.std.specs.Prelude.{IfOk};
    ghost use Rattle.trick_turn.specs.Passes.{IsSamePass};
    ghost use Rattle.trick_turn_tests.specs.Answers.{IsAnswered, IsAwaited};

    pub(crate) fn new(
        lock: &Arc<TurnLock<Board<M>>, Global>,
        pass: Pass<Board<M>>,
    ) -> Result<Hand<M>, AllocError>
        requires { IsPassOf (arc_value lock.now) pass × Rests pass }
        ensures { IfOk result (λ h. h.pass ≡ pass) }
    {
        let lock = Arc::try_clone(lock)?;
        Ok(Hand { lock, pass })
    }

    /// Stores a number, and waits for the turn.
    pub fn store<R: Wait>(&mut self, rt: &R, cell: usize, number: u64) -> Stored
        ensures same { IsSamePass self.old.pass self.new.pass }
        ensures answer { IsAwaited self.old.pass self.new.pass cell number result }
    {
        let seat = self.pass.number();
        let mut turn = self.pass.claim(rt, &self.lock);
        if turn.value().store(cell, number) {
            tell_store::<M, Brand>(turn, seat, cell, number);
            Stored::Done
        } else {
            turn.release::<Nothing>();
            Stored::Closed
        }
    }

    /// Stores a number if the turn is free. It waits for nobody.
    pub fn try_store(&mut self, cell: usize, number: u64) -> Stored
        ensures same { IsSamePass self.old.pass self.new.pass }
        ensures answer { IsAnswered self.old.pass self.new.pass cell number result }
    {
        let seat = self.pass.number();
        match self.pass.try_claim(&self.lock) {
            Claim::Busy { found } => Stored::Busy { found },
            Claim::Got(mut turn) => {
                if turn.value().store(cell, number) {
                    tell_store::<M, Brand>(turn, seat, cell, number);
                    Stored::Done
                } else {
                    turn.release::<Nothing>();
                    Stored::Closed
                }
            }
        }
    }
}
