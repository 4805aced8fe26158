//! The plan that the threads of a crew share.
ghost use Rattle.std.specs.Arc.{arc_value};
ghost use Rattle.std.specs.Coded.{Coded-set};
ghost use Rattle.std.specs.Prelude.{◌≡◌, IfOk, Some};
ghost use Rattle.trick_crew_team.specs.Plans.{plan_code};

use std::alloc::{AllocError, Global};
use std::marker::PhantomData;
use std::sync::Arc;
use trick_model::{Accepted, Planned};

/// An accepted plan that threads share: the plan that `P` tells.
#[derive(Drop)]
pub struct Held<P: Planned> {
    pub accepted: Arc<Accepted, Global>,
    of: PhantomData<P>,
    pub ghost is: { P.plan ≡ Some (arc_value accepted).plan } by { Coded-set plan_code P.plan (Some (arc_value accepted).plan) },
}

impl<P: Planned> Held<P> {
    /// The plan that `P` tells, which threads are to share.
    pub fn new(accepted: Arc<Accepted, Global>) -> Held<P>
        requires plan { P.plan ≡ Some (arc_value accepted).plan }
        ensures { arc_value result.accepted ≡ arc_value accepted }
    {
        Held {
            accepted,
            of: PhantomData,
        }
    }

    /// The same plan, for one more thread.
    pub fn try_clone(&self) -> Result<Held<P>, AllocError>
        ensures { IfOk result (λ other. arc_value other.accepted ≡ arc_value self.now.accepted) }
    {
        let accepted = Arc::try_clone(&self.accepted)?;
        Ok(Held::new(accepted))
    }
}
