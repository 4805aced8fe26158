//! The chief, who opens and closes the board.
ghost use Rattle.std.specs.Prelude.{◌≡◌, ◌++◌, ◌∷◌, [], Some};
ghost use Rattle.std.specs.Option.{option_map};
ghost use Rattle.std.specs.Arc.{arc_value};
ghost use Rattle.trick_turn.specs.Passes.{IsPassOf, Rests, Releases, number_of, seen};
ghost use Rattle.trick_turn.specs.Turns.{IsTurn, pass_of, pass_left, value_of};
ghost use Rattle.trick_turn_tests.specs.Histories.{Stands, opening};

use crate::board::{Board, Entry};
use crate::cells::Cells;
use crate::hand::Hand;
use std::alloc::Global;
use std::marker::Brand;
use std::sync::{Arc, Wait};
use trick_turn::{Adds, Pass, Turn, TurnLock};

/// The first pass of a lock, with the lock.
#[derive(Drop)]
pub struct Chief<M: Cells + Drop> {
    pub(crate) lock: Arc<TurnLock<Board<M>>, Global>,
    pub pass: Pass<Board<M>>,
    pub ghost of_lock: { IsPassOf (arc_value lock) pass },
    pub ghost rests: { Rests pass },
    pub ghost first: { number_of pass ≡ 1 },
}

// Ends a turn that opened the board. `T` tells it: the memory's numbers are those of the turn's value.
fn tell_open<M: Cells + Drop, T: Adds<Entry>>(turn: Turn<'_, Board<M>>, on: &[bool], tic: u64)
    requires turn { IsTurn turn }
    requires first { number_of (pass_of turn) ≡ 1 }
    requires tells { T.tells ≡ Some (opening M.numbers (value_of turn) on.now tic) }
    requires stands { Stands (option_map M.numbers (value_of turn))
        (seen (pass_of turn) ++ opening M.numbers (value_of turn) on.now tic ∷ []) }
    ensures { Releases (Some (opening M.numbers (value_of turn.entry) on.now tic))
        (pass_of turn.entry) (pass_left turn.exit) }
{
    turn.release::<T>();
}

impl<M: Cells + Drop> Chief<M> {
    ghost use Rattle.std.specs.Prelude.{None, IsSome};
    ghost use mathlib.Core.List.{IsPrefix};
    ghost use Rattle.trick_turn.specs.Passes.{own};
    ghost use Rattle.trick_turn_tests.specs.Histories.{Opening, opened_at};
    ghost use Rattle.trick_turn_tests.specs.Answers.{HasAdded, HasClosed};

    /// Opens the board with a memory. The flags and the tic are only noted in the history.
    pub fn open<R: Wait>(&mut self, rt: &R, memory: M, on: &[bool], tic: u64)
        requires { opened_at (own self.old.pass) ≡ None }
        ensures lock { self.new.lock ≡ self.old.lock }
        ensures adds { HasAdded self.old.pass self.new.pass (Entry.Open 1 (M.numbers memory) on.now tic) }
    {
        let mut turn = self.pass.claim(rt, &self.lock);
        turn.value().open(memory);
        tell_open::<M, Brand>(turn, on, tic);
    }

    /// Closes the board, and gives its memory: the one of this chief's last open, with all that was stored since then.
    pub fn close<R: Wait>(&mut self, rt: &R) -> M
        requires { IsSome (opened_at (own self.old.pass)) }
        ensures lock { self.new.lock ≡ self.old.lock }
        ensures closes { (o : Opening) → opened_at (own self.old.pass) ≡ Some o
            → HasClosed self.old.pass self.new.pass o (M.numbers result) }
    {
        let mut turn = self.pass.claim(rt, &self.lock);
        let memory = turn.value().close();
        turn.release::<Brand>();
        memory
    }

    /// Takes a hand in whose work is done: what both have seen is of one history.
    pub fn take_in(&mut self, hand: Hand<M>)
        requires { IsPassOf (arc_value self.old.lock) hand.pass }
        ensures lock { self.new.lock ≡ self.old.lock }
        ensures own { own self.new.pass ≡ own self.old.pass }
        ensures chief { IsPrefix (seen self.old.pass) (seen self.new.pass) }
        ensures hand { IsPrefix (seen hand.pass) (seen self.new.pass) }
    {
        let Hand { lock: _lock, pass } = hand;
        self.lock.join(&mut self.pass, pass);
    }
}
