//! A plan that is to be accepted.

ghost use Rattle.std.specs.Prelude.{◌≡◌, IfOk};
ghost use Rattle.trick_access.specs.Accesses.{AreAccessesOf};

use crate::Plan;
use std::alloc::{AllocError, Global};
use trick_access::{Access, accesses};
use trick_base::Items;

/// A plan that is to be accepted or refused, with what each of its jobs may read and write. Acceptance looks at both, and
/// an accepted plan keeps them.
#[derive(Drop)]
pub struct Candidate {
    pub(crate) plan: Plan,
    pub(crate) accesses: Items<Access>,
    ghost known: { AreAccessesOf plan.program accesses },
}

impl Candidate {
    /// Finds what each job of a plan may read and write. Where memory runs out, the plan is dropped.
    pub fn of(alloc: Global, plan: Plan) -> Result<Self, AllocError>
        ensures { IfOk result (λ candidate. candidate.plan ≡ plan) }
    {
        let accesses = accesses(alloc, &plan.program)?;
        Ok(Candidate { plan, accesses })
    }

    /// The plan.
    pub fn plan(&self) -> &Plan
        ensures { result.now ≡ self.now.plan }
    {
        &self.plan
    }

    /// What each job of the plan may read and write, by its number.
    pub fn accesses(&self) -> &[Access]
        ensures { AreAccessesOf self.now.plan.program result.now }
    {
        self.accesses.as_slice()
    }
}
