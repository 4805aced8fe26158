//! Plans that need no clerks.
ghost use Rattle.std.specs.Arc.{arc_value};
ghost use Rattle.std.specs.Prelude.{◌≡◌, false};
ghost use Rattle.trick_crew.specs.Needs.{needs_clerks};

use trick_model::{Plan, Planned};
use trick_post::Held;

/// Stands for the clerks where no thread of the plan works beside the tics: nothing can be handed over. It has no
/// thread, and no memory but its share of the plan.
#[derive(Drop)]
pub struct Nobody<P: Planned> {
    pub(crate) held: Held<P>,
    pub ghost none: { needs_clerks (arc_value held.accepted).plan ≡ false },
}

/// Whether a plan needs clerks: some thread of it is must-finish or asynchronous.
pub(crate) fn needs_clerks(plan: &Plan) -> bool
    ensures { result ≡ needs_clerks plan.now }
{
    plan.threads
        .as_slice()
        .iter()
        .any(|thread| thread.process.is_beside())
}
