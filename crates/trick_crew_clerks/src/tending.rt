//! What the caller does for clerks that stayed.
ghost use Rattle.std.specs.Prelude.{◌≡◌, ℕ};
ghost use Rattle.trick_crew_clerks.specs.Tending.{AreTended, IsTended};

use crate::shift::Shift;
use std::sync::Wait;
use trick_model::Planned;
use trick_outside::Gate;

// Does what waits for a thread, where this is its clerk.
#[tactic(auto, using(crate::proofs::Tended::now_tended, crate::proofs::Tended::other_tended))]
fn attend<P: Planned, G: Gate + Drop, R: Wait + Drop>(shift: &mut Shift<P, G, R>, thread: u8)
    ensures { IsTended (λ (n : ℕ). n ≡ thread) shift.old shift.new }
{
    if shift.clerk.thread == thread {
        shift.attend();
    }
}

/// Does what waits for a thread, where its clerk is among these.
pub(crate) fn attend_each<P: Planned, G: Gate + Drop, R: Wait + Drop>(
    here: &mut Vec<Shift<P, G, R>>,
    thread: u8,
)
    ensures { AreTended (λ (n : ℕ). n ≡ thread) here.old.items here.new.items }
{
    for index in 0..here.len() {
        attend(&mut here[index], thread);
    }
}
