//! The rule of a queue between two ends, and what each of them knows. No value of these types is made.

ghost use Rattle.std.specs.Prelude.{◌≡◌, ◌++◌, ◌∷◌, []};

use crossbeam_queue::protocol::{Join, Lesson, Outcome, Protocol, Split};
use std::collections::LinkedList;

/// What an end of a queue knows: whether it puts and takes, and what it has put and taken, the first of it first.
pub struct Side<T> {
    pub puts: bool,
    pub takes: bool,
    pub put: LinkedList<T>,
    pub taken: LinkedList<T>,
}

/// What was put is taken in order, each item once.
pub struct InOrder;

impl<T> Protocol<T, Side<T>> for InOrder {
    ghost use Rattle.std.specs.Prelude.{true, []};
    ghost use Rattle.trick_wire.specs.Rule.{IsRelayed, side};

    ghost holds = { IsRelayed };

    ghost first = { side true true [] [] };
}

/// One end puts and the other takes.
pub struct Roles;

impl<T> Split<Side<T>> for Roles {
    ghost use Rattle.std.specs.Prelude.{true, false, []};
    ghost use Rattle.trick_wire.specs.Rule.{side};

    ghost left = { λ known. side true false known.put [] };

    ghost right = { λ known. side false true [] known.taken };
}

impl<T> Join<Side<T>> for Roles {
    ghost use Rattle.std.specs.Prelude.{true, false, []};
    ghost use Rattle.trick_wire.specs.Rule.{side};

    ghost both = { λ taker putter. side true true putter.put taker.taken };

    ghost spent = { side false false [] [] };
}

/// One item more is put.
pub struct Puts;

impl<T> Outcome<T, Side<T>> for Puts {
    ghost use Rattle.trick_wire.specs.Rule.{after_put};

    ghost then = { λ old item new. new ≡ after_put old item };
}

impl<T> Lesson<T, Side<T>> for Puts {
    ghost use Rattle.trick_wire.specs.Rule.{Knows};

    ghost fact = { Knows };
}

/// One item more is taken.
pub struct Takes;

impl<T> Outcome<T, Side<T>> for Takes {
    ghost use Rattle.trick_wire.specs.Rule.{after_take};

    ghost then = { λ old item new. new ≡ after_take old item };
}

impl<T> Lesson<T, Side<T>> for Takes {
    ghost use Rattle.trick_wire.specs.Rule.{Knows};

    ghost fact = { Knows };
}
