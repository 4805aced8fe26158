//! Queues of plans that are drawn, beside their plain form.

ghost use Rattle.std.specs.Prelude.{◌≡◌, ◌+◌, ◌≤◌};
ghost use Rattle.trick_base.specs.Time.{tic_limit};
ghost use Rattle.trick_queue.specs.Queue.{IsFor};

use crate::drawn::Numbers;
use crate::plain::{count_due, due_at, next_due};
use std::alloc::{AllocError, Global};
use trick_model::Plan;
use trick_queue::Queues;

// Asks for a tic, and tells whether the steps, the due jobs and the next tic are those of the plain form.
fn is_equal(
    alloc: Global,
    plan: &Plan,
    queues: &mut Queues,
    from: u64,
    tic: u64,
) -> Result<bool, AllocError>
    requires own { IsFor plan.now queues.old }
    requires from { queues.old.from ≡ from }
    requires later { from ≤ tic }
    requires tic { tic ≤ tic_limit }
    ensures own { IsFor plan.now queues.new }
    ensures from { queues.new.from ≡ tic + 1 }
{
    let end = tic + 1;
    let most = count_due(plan, from, end).saturating_add(1);
    let steps = queues.ask(plan, tic);
    let due = due_at(alloc, plan, tic)?;
    Ok(steps <= most && due.as_slice() == queues.due() && queues.next() == next_due(plan, end))
}

// Walks by queues that are asked from a tic on, and tells the number of the first ask that differs.
fn walk(
    alloc: Global,
    plan: &Plan,
    queues: &mut Queues,
    start: u64,
    numbers: &mut Numbers,
) -> Result<Option<u64>, AllocError>
    requires own { IsFor plan.now queues.old }
    requires from { queues.old.from ≡ start }
{
    let mut from = start;
    for ask in 0..16u64 {
        let tic = from.saturating_add(numbers.below(5));
        if tic < from || tic > 1_000 {
            return Ok(None);
        }
        if !is_equal(alloc, plan, queues, from, tic)? {
            return Ok(Some(ask));
        }
        from = tic + 1;
    }
    Ok(None)
}

/// The number of the first ask at which the queues of a plan and the plain form differ. `None` where there is none. The
/// walk starts at one of tics 0 to 7, and asks 16 times, for tics that rise by 1 to 5.
pub(crate) fn first_difference(
    alloc: Global,
    plan: &Plan,
    numbers: &mut Numbers,
) -> Result<Option<u64>, AllocError> {
    let start = numbers.below(8);
    let mut queues = Queues::new(alloc, plan, start)?;
    let place = walk(alloc, plan, &mut queues, start, numbers);
    drop(queues);
    place
}
