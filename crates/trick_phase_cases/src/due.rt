//! The due jobs of one tic.

ghost use Rattle.std.specs.Prelude.{◌≡◌, ◌≤◌, IfOk, Some};
ghost use Rattle.trick_base.specs.Time.{tic_limit};
ghost use Rattle.trick_queue.specs.Queue.{IsFor};

use std::alloc::{AllocError, Global};
use trick_model::Plan;
use trick_queue::Queues;

/// The queues of a plan, which were asked for a tic.
pub(crate) fn asked(alloc: Global, plan: &Plan, tic: u64) -> Result<Queues, AllocError>
    requires { tic ≤ tic_limit }
    ensures own { IfOk result (λ queues. IsFor plan.now queues) }
    ensures asked { IfOk result (λ queues. queues.asked ≡ Some tic) }
{
    let mut queues = Queues::new(alloc, plan, tic)?;
    queues.ask(plan, tic);
    Ok(queues)
}
