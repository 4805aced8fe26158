//! How a post is made.
ghost use Rattle.std.specs.Arc.{arc_value};
ghost use Rattle.std.specs.Prelude.{◌≡◌, ◌<◌, [], All, IfOk, map};
ghost use Rattle.trick_post.specs.Clerks.{AreClerkPasses, clerked, has_clerk};
ghost use Rattle.std.specs.Prelude.{filter};
ghost use Rattle.trick_turn.specs.Passes.{own};

use crate::clerk::Clerk;
use crate::desk::Desk;
use crate::held::Held;
use crate::rack::Rack;
use std::alloc::{AllocError, Global};
use std::sync::{Arc, Wait};
use trick_model::{Plan, Planned, process_of};
use trick_post_places::Places;
use trick_post_trays::{Parcel, Worker};
use trick_turn::{Pass, TurnLock};

// The numbers that threads may have.
const NUMBERS: [u8; 16] = [0, 1, 2, 3, 4, 5, 6, 7, 8, 9, 10, 11, 12, 13, 14, 15];

// The desk's pass, and one for the clerk of each number.
const SEATS: u32 = 17;

/// Places for the work of must-finish and asynchronous threads behind a turn, which a desk and some clerks share.
pub struct Post;

// Whether a thread has a clerk.
fn has_clerk(plan: &Plan, number: u8) -> bool
    ensures { result ≡ has_clerk plan.now number }
{
    process_of(plan.threads.as_slice(), number).is_beside()
}

// A clerk for each of these threads that works beside the tics, with the pass that was dealt for it.
fn clerks_with<P: Planned>(
    alloc: Global,
    held: &Held<P>,
    lock: &Arc<TurnLock<Places<P>>, Global>,
    numbers: &[u8],
    passes: &mut Vec<Pass<Places<P>>>,
) -> Result<Vec<Clerk<P>>, AllocError>
    requires passes { AreClerkPasses (arc_value lock.now) numbers.now passes.old.items }
    requires small { All (λ n. n < 16) numbers.now }
    ensures threads { IfOk result (λ clerks. map (λ c. c.thread) clerks.items
        ≡ filter (has_clerk (arc_value held.now.accepted).plan) numbers.now) }
    ensures lock { IfOk result (λ clerks. All (λ c. arc_value c.lock ≡ arc_value lock.now) clerks.items) }
    ensures plan { IfOk result (λ clerks. All (λ c. arc_value c.held.accepted ≡ arc_value held.now.accepted)
        clerks.items) }
{
    let mut clerks = Vec::new(alloc);
    for number in numbers {
        let pass = passes.remove(0);
        if has_clerk(held.accepted.plan(), *number) {
            clerks.push(Clerk::new(alloc, held, lock, pass, *number)?)?;
        }
    }
    Ok(clerks)
}

impl Post {
    /// A post of a plan: a desk with nothing started, and a clerk for each must-finish and asynchronous thread, by
    /// rising number. This call takes all the memory that the post ever needs.
    pub fn new<P: Planned, R: Wait + Drop>(
        rt: R,
        alloc: Global,
        held: Held<P>,
    ) -> Result<(Desk<P, R>, Vec<Clerk<P>>), AllocError>
        ensures plan { IfOk result (λ t. arc_value t.0.rack.held.accepted ≡ arc_value held.accepted) }
        ensures none { IfOk result (λ t. own t.0.rack.pass ≡ []) }
        ensures late { IfOk result (λ t. t.0.late ≡ 0) }
        ensures threads { IfOk result (λ t. map (λ c. c.thread) t.1.items ≡ clerked (arc_value held.accepted).plan) }
        ensures lock { IfOk result (λ t. All (λ c. arc_value c.lock ≡ arc_value t.0.rack.lock) t.1.items) }
        ensures clerks { IfOk result (λ t. All (λ c. arc_value c.held.accepted ≡ arc_value held.accepted) t.1.items) }
    {
        let places = Places::new(alloc, held.accepted.plan())?;
        let (lock, mut passes) = TurnLock::new(alloc, places, SEATS)?;
        let lock = Arc::new(alloc, lock)?;
        let pass = passes.remove(0);
        let clerks = clerks_with(alloc, &held, &lock, &NUMBERS, &mut passes)?;
        let parcels = Parcel::all(alloc, held.accepted.plan())?;
        let worker = Worker::new(alloc, &*held.accepted)?;
        let rack = Rack {
            held,
            lock,
            pass,
            parcels,
        };
        Ok((Desk::new(rt, rack, worker), clerks))
    }
}
