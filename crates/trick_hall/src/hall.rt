//! How a hall is made.
ghost use Rattle.std.specs.Arc.{arc_value};
ghost use Rattle.std.specs.Prelude.{◌≡◌, ◌+◌, ◌-◌, ◌^◌, ◌<◌, ◌∷◌, [], All, IfOk, Some, length, map};
ghost use Rattle.trick_turn.specs.Passes.{AreDealt, IsPassOf, Rests, own};

use crate::chief::Chief;
use crate::hand::Hand;
use std::alloc::{AllocError, Global};
use std::sync::Arc;
use trick_hall_kept::Kept;
use trick_lang::Cells;
use trick_model::{Accepted, Planned};
use trick_turn::{Pass, TurnLock};

/// The board of a plan behind a turn, which a chief and some hands share.
pub struct Hall;

impl Hall {
    /// A closed hall of a plan: its chief, whose pass has the number 1, and so many hands, numbered from 2 on. None of
    /// them has seen or done anything. This call takes all the memory that the hall ever needs.
    pub fn new<M: Cells + Drop, P: Planned>(
        alloc: Global,
        accepted: &Accepted,
        hands: u32,
    ) -> Result<(Chief<M, P>, Vec<Hand<M, P>>), AllocError>
        requires plan { P.plan ≡ Some accepted.now.plan }
        requires few { hands < 2 ^ 32 - 1 }
        ensures many { IfOk result (λ t. length t.1.items ≡ hands) }
        ensures fresh { IfOk result (λ t. own t.0.pass ≡ []) }
        ensures dealt { IfOk result (λ t. AreDealt (arc_value t.0.lock) (hands + 1)
            (t.0.pass ∷ map (λ h. h.pass) t.1.items)) }
        ensures lock { IfOk result (λ t. All (λ h. arc_value h.lock ≡ arc_value t.0.lock) t.1.items) }
    {
        let kept = Kept::new(alloc, accepted)?;
        let (lock, mut passes) = TurnLock::new(alloc, kept, hands + 1)?;
        let lock = Arc::new(alloc, lock)?;
        let pass = passes.remove(0);
        let hands = hands_with(alloc, &lock, passes)?;
        Ok((Chief { lock, pass }, hands))
    }
}

// A hand for each of these passes of a lock, in their order.
fn hands_with<M: Cells + Drop, P: Planned>(
    alloc: Global,
    lock: &Arc<TurnLock<Kept<M, P>>, Global>,
    passes: Vec<Pass<Kept<M, P>>>,
) -> Result<Vec<Hand<M, P>>, AllocError>
    requires { All (λ p. IsPassOf (arc_value lock.now) p × Rests p) passes.items }
    ensures passes { IfOk result (λ hands. map (λ h. h.pass) hands.items ≡ passes.items) }
    ensures lock { IfOk result (λ hands. All (λ h. arc_value h.lock ≡ arc_value lock.now) hands.items) }
{
    let mut hands = Vec::with_capacity(alloc, passes.len())?;
    for pass in passes {
        hands.push(Hand::new(lock, pass)?)?;
    }
    Ok(hands)
}
