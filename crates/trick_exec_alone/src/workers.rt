//! Whoever works for a run on one thread.

ghost use Rattle.std.specs.Arc.{arc_value};
ghost use Rattle.std.specs.Prelude.{◌≡◌, ℕ, IfOk, None};
ghost use Rattle.trick_post_trays.specs.Posting.{started_at};
ghost use Rattle.trick_phase.specs.Single.{IsSingleOf};

use std::alloc::{AllocError, Global};
use std::sync::Arc;
use trick_exec_tic::Workers;
use trick_lang::Cells;
use trick_model::Accepted;
use trick_phase::Single;
use trick_post_trays::OnePost;

/// The workers of a run on the caller's thread, with nothing started: the jobs of a tic go through a board, one
/// after another. This call alone takes memory.
pub fn one_thread<M: Cells + Drop>(
    alloc: Global,
    accepted: &Arc<Accepted, Global>,
) -> Result<Workers<Single<M>, OnePost>, AllocError>
    ensures phases { IfOk result (λ workers. IsSingleOf (arc_value accepted.now).plan workers.phases.board
        workers.phases.bench.parts) }
    ensures posts { IfOk result (λ workers. arc_value workers.posts.accepted ≡ arc_value accepted.now) }
    ensures free { IfOk result (λ workers. (n : ℕ) → started_at workers.posts.trays.items n ≡ None) }
{
    let phases = Single::new(alloc, accepted)?;
    let posts = OnePost::new(alloc, Arc::try_clone(accepted)?)?;
    Ok(Workers { phases, posts })
}
