//! A chief with two hands.
ghost use Rattle.std.specs.Prelude.{◌≡◌, None, IfOk};
ghost use Rattle.std.specs.Arc.{arc_value};
ghost use mathlib.Core.List.{IsPrefix};
ghost use Rattle.trick_turn.specs.Passes.{IsPassOf, seen, own};
ghost use Rattle.trick_turn_tests.specs.Histories.{opened_at};

use crate::board::Board;
use crate::cells::Cells;
use crate::chief::Chief;
use crate::hand::Hand;
use std::alloc::{AllocError, Global};
use std::sync::Arc;
use trick_turn::TurnLock;

/// A closed board with a chief and two hands.
pub fn make_hall<M: Cells + Drop>(alloc: Global) -> Result<(Chief<M>, Hand<M>, Hand<M>), AllocError>
    ensures closed { IfOk result (λ t. opened_at (own t.0.pass) ≡ None) }
    ensures left { IfOk result (λ t. IsPassOf (arc_value t.0.lock) t.1.pass) }
    ensures right { IfOk result (λ t. IsPassOf (arc_value t.0.lock) t.2.pass) }
{
    let (lock, mut passes) = TurnLock::new(alloc, Board::new(), 3)?;
    let lock = Arc::new(alloc, lock)?;
    let third = passes.pop().unwrap();
    let second = passes.pop().unwrap();
    let pass = passes.pop().unwrap();
    let left = Hand::new(&lock, second)?;
    let right = Hand::new(&lock, third)?;
    Ok((Chief { lock, pass }, left, right))
}

/// Takes both hands in: what the chief and the hands have seen is of one history, which the chief has now seen.
pub fn gather<M: Cells + Drop>(chief: &mut Chief<M>, left: Hand<M>, right: Hand<M>)
    requires left { IsPassOf (arc_value chief.old.lock) left.pass }
    requires right { IsPassOf (arc_value chief.old.lock) right.pass }
    ensures lock { chief.new.lock ≡ chief.old.lock }
    ensures own { own chief.new.pass ≡ own chief.old.pass }
    ensures chief { IsPrefix (seen chief.old.pass) (seen chief.new.pass) }
    ensures left { IsPrefix (seen left.pass) (seen chief.new.pass) }
    ensures right { IsPrefix (seen right.pass) (seen chief.new.pass) }
{
    chief.take_in(left);
    chief.take_in(right);
}
