//! A post that was shut.
ghost use Rattle.std.specs.Arc.{arc_value};
ghost use Rattle.std.specs.Prelude.{◌≡◌};
ghost use Rattle.trick_post_places.specs.Histories.{desk_seat};
ghost use Rattle.trick_turn.specs.Passes.{IsPassOf, Rests, number_of, own, seen};
ghost use mathlib.Core.List.{IsPrefix};

use crate::clerk::Clerk;
use std::alloc::Global;
use std::sync::Arc;
use trick_model::Planned;
use trick_post_places::Places;
use trick_turn::{Pass, TurnLock};

/// A post that its desk has shut. The clerks are taken in here once they have ended.
#[derive(Drop)]
pub struct ShutPost<P: Planned> {
    pub(crate) lock: Arc<TurnLock<Places<P>>, Global>,
    /// What the desk and the clerks that were taken in have seen of the post's history, and what the desk added, which
    /// only proofs read.
    pub pass: Pass<Places<P>>,
    pub ghost of_lock: { IsPassOf (arc_value lock) pass },
    pub ghost rests: { Rests pass },
    pub ghost first: { number_of pass ≡ desk_seat },
}

impl<P: Planned> ShutPost<P> {
    /// Takes a clerk in whose work is done: what it has seen and what was seen here are of one history, and here the
    /// longer part is now seen.
    pub fn take_in(&mut self, clerk: Clerk<P>)
        requires { IsPassOf (arc_value self.old.lock) clerk.pass }
        ensures lock { self.new.lock ≡ self.old.lock }
        ensures own { own self.new.pass ≡ own self.old.pass }
        ensures post { IsPrefix (seen self.old.pass) (seen self.new.pass) }
        ensures clerk { IsPrefix (seen clerk.pass) (seen self.new.pass) }
    {
        let Clerk { pass, .. } = clerk;
        self.lock.join(&mut self.pass, pass);
    }
}
