//! The rule of the lock's table, and what each kind of step tells.
ghost use Rattle.std.specs.Prelude.{[]};
ghost use Rattle.trick_turn.specs.TurnRule.{TurnRule};
ghost use Rattle.trick_turn.specs.Views.{fresh_view, spent_view, after_split, split_off, after_join};
ghost use Rattle.trick_turn.specs.Steps.{ClaimsOrMisses, HasReleased, HasLooked};

use crate::keeps::{Adds, Keeps};
use crate::view::View;
use atomic_table::{Join, Play, Split, TableRule};
use std::marker::PhantomData;

/// The rule of a table with one word, the turn, and one slot, the value's home.
pub struct OneTurn<B> {
    value: PhantomData<B>,
}

impl<B: Keeps> TableRule<Option<B>, View<B::Entry>, ()> for OneTurn<B> {
    ghost holds = { λ _. TurnRule B.stands B.seat };

    ghost first = { λ _. fresh_view 1 1 [] };
}

/// A claim, which also takes the value out, or a missed claim.
pub(crate) struct ClaimStep<B> {
    value: PhantomData<B>,
}

impl<B: Keeps> Play<Option<B>, View<B::Entry>> for ClaimStep<B> {
    ghost then = { ClaimsOrMisses B.stands B.seat };
}

/// A release, which adds what `E` tells.
pub(crate) struct ReleaseStep<E> {
    adds: PhantomData<E>,
}

impl<B: Keeps, E: Adds<B::Entry>> Play<Option<B>, View<B::Entry>> for ReleaseStep<E> {
    ghost then = { HasReleased E.tells };
}

/// A new seat is split from the first.
pub(crate) struct SplitSeat;

impl<E> Split<View<E>> for SplitSeat {
    ghost left = { after_split };

    ghost right = { split_off };
}

/// A seat is joined to the first, and spent.
pub(crate) struct JoinSeat;

impl<E> Join<View<E>> for JoinSeat {
    ghost both = { after_join };

    ghost spent = { spent_view };
}

/// A look, which changes nothing.
pub(crate) struct LookStep;

impl<S, E> Play<S, View<E>> for LookStep {
    ghost then = { HasLooked };
}
