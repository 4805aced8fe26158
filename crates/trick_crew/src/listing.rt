//! The clerks of a crew before they are started.
ghost use Rattle.std.specs.Arc.{arc_value};
ghost use Rattle.std.specs.Prelude.{◌≡◌, ℕ, IfOk, None};
ghost use Rattle.trick_crew.specs.Clerks.{AreStaffedBy, IsListedFor, StayedAmong};
ghost use Rattle.trick_crew.specs.InHand.{in_hand, plan_for};
ghost use Rattle.trick_post.specs.Clerks.{clerked};
ghost use Rattle.trick_model.specs.declared.accepted.Accepted.{Accepted};
ghost use Rattle.trick_outside.specs.Causes.{HasCause};

use crate::clerks::Clerks;
use crate::nobody::{Nobody, needs_clerks};
use std::alloc::{AllocError, Global};
use std::sync::{Arc, Wait};
use std::thread::Threads;
use trick_crew_clerks::Roster;
use trick_model::Planned;
use trick_outside::{Gate, Spawner};
use trick_post::Held;

/// The clerks that a plan needs, none of which was started yet, with all memory that they ever need.
#[derive(Drop)]
pub(crate) enum Listing<
    P: Planned + Send + 'static,
    G: Gate + Send + Sync + Drop + 'static,
    R: Threads + Wait + Copy + Send + Drop + 'static,
> {
    Nobody(Nobody<P>),
    Roster(Roster<P, G, R>),
}

impl<
    P: Planned + Send + 'static,
    G: Gate + Send + Sync + Drop + 'static,
    R: Threads + Wait + Copy + Send + Drop + 'static,
> Listing<P, G, R> {
    /// The clerks that the plan needs. Where it needs none this takes no memory.
    pub(crate) fn new(
        rt: R,
        alloc: Global,
        held: Held<P>,
        gate: &Arc<G, Global>,
    ) -> Result<Self, AllocError>
        ensures { IfOk result (IsListedFor (arc_value held.accepted)) }
    {
        if !needs_clerks(held.accepted.plan()) {
            return Ok(Listing::Nobody(Nobody { held }));
        }
        let roster = Roster::new(rt, alloc, held, gate)?;
        Ok(Listing::Roster(roster))
    }

    /// Starts the clerks, as far as the spawner and the system admit it. It takes no memory but what a start takes.
    pub(crate) fn start<S: Spawner>(self, alloc: Global, spawner: &mut S) -> Clerks<P, G, R>
        ensures plan { (accepted : Accepted) → IsListedFor accepted self → plan_for result ≡ accepted.plan }
        ensures free { (accepted : Accepted) → IsListedFor accepted self → (n : ℕ) → in_hand result n ≡ None }
        ensures clerks { (accepted : Accepted) → IsListedFor accepted self
            → AreStaffedBy (clerked accepted.plan) result }
        ensures cause { HasCause (S.failures spawner.old) (S.failures spawner.new) (StayedAmong result) }
    {
        match self {
            Listing::Nobody(nobody) => Clerks::Nobody(nobody),
            Listing::Roster(roster) => Clerks::Yard(roster.start(alloc, spawner)),
        }
    }
}
