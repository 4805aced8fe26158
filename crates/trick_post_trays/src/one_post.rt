ghost use Rattle.std.specs.Arc.{arc_value};
ghost use Rattle.std.specs.Prelude.{◌≡◌, ℕ, IfOk, None};
ghost use Rattle.trick_post_trays.specs.Posting.{AreParts, started_at};

use crate::{Tray, Worker};
use std::alloc::{AllocError, Global};
use std::sync::Arc;
use trick_lang::Cells;
use trick_model::{Accepted, Faults, Taken};
use trick_post_work::{Job1, Posted, Posts};

/// The work of must-finish and asynchronous threads on the caller's thread: each is done where it is to
/// be published. A round is always ready.
#[derive(Drop)]
pub struct OnePost {
    accepted: Arc<Accepted, Global>,
    // By the number of the thread.
    trays: Vec<Tray>,
    worker: Worker,
    // They are those of the plan.
    ghost parts: { AreParts (arc_value accepted).plan trays.items worker },
}

impl OnePost {
    /// For a plan, with nothing started. This call alone takes memory.
    pub fn new(alloc: Global, accepted: Arc<Accepted, Global>) -> Result<Self, AllocError>
        ensures plan { IfOk result (λ post. arc_value post.accepted ≡ arc_value accepted) }
        ensures none { IfOk result (λ post. (n : ℕ) → started_at post.trays.items n ≡ None) }
    {
        let trays = Tray::all(alloc, accepted.plan())?;
        let worker = Worker::new(alloc, &*accepted)?;
        Ok(OnePost {
            accepted,
            trays,
            worker,
        })
    }
}

impl Posts for OnePost {
    ghost use Rattle.std.specs.Arc.{arc_value};
    ghost use Rattle.trick_post_trays.specs.Posting.{AllReady, none_late, ready_join, started_at};

    ghost plan = { λ post. (arc_value post.accepted).plan };

    ghost in_flight = { λ post. started_at post.trays.items };

    ghost lateness = { λ post. 0 };

    ghost asked = { λ old polls new. AllReady polls };

    fn start(&mut self, thread: u8, taken: &Taken, work: Job1) {
        let plan = self.accepted.plan();
        self.trays[thread as usize].put(plan, taken, work);
    }

    fn poll(&mut self, _thread: u8, _turn: u64) -> Posted {
        Posted::Ready
    }

    fn late(&self) -> u64 {
        0
    }

    fn finish<M: Cells>(&mut self, thread: u8, memory: &mut M, faults: &mut Faults, tic: u64) {
        let plan = self.accepted.plan();
        let tray = &mut self.trays[thread as usize];
        self.worker.finish(plan, tray, memory, faults, tic);
    }

    ghost asked_none = { λ post. tt };

    ghost asked_join = { λ first second third early late. ready_join early late };

    ghost asked_late = { λ old new polls ready. none_late polls ready };
}
