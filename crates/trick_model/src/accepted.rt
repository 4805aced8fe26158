//! A plan that is accepted.

ghost use Rattle.std.specs.Prelude.{◌≡◌};
ghost use Rattle.trick_access.specs.Accesses.{AreAccessesOf};
ghost use Rattle.trick_model.specs.Acceptance.{IsAccepted};
ghost use Rattle.trick_model.specs.PlanOf.{plan_of};

use crate::{Candidate, Plan};
use trick_access::Access;
use trick_base::Items;

/// A plan that is accepted: no schedule of its threads can make its result another one. It keeps what
/// each of its jobs may read and write, which was found to accept it.
#[derive(Drop)]
pub struct Accepted {
    plan: Plan,
    accesses: Items<Access>,
    ghost accepted: { ∥ IsAccepted (plan_of plan) ∥₁ },
    ghost known: { AreAccessesOf plan.program accesses },
}

impl Accepted {
    /// The plan of a candidate that meets acceptance.
    pub fn of(candidate: Candidate) -> Self
        requires { ∥ IsAccepted (plan_of candidate.plan) ∥₁ }
        ensures { result.plan ≡ candidate.plan }
    {
        let Candidate { plan, accesses } = candidate;
        Accepted { plan, accesses }
    }

    /// The plan.
    pub fn plan(&self) -> &Plan
        ensures plan { result.now ≡ self.now.plan }
        ensures accepted { ∥ IsAccepted (plan_of result.now) ∥₁ }
    {
        &self.plan
    }

    /// What each job of the plan may read and write, by its number.
    pub fn accesses(&self) -> &[Access]
        ensures { AreAccessesOf self.now.plan.program result.now }
    {
        self.accesses.as_slice()
    }
}
