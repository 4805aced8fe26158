//! How the clerks of a yard are taken in.
ghost use Rattle.std.specs.Arc.{arc_value};
ghost use Rattle.std.specs.Prelude.{◌≡◌, All};
ghost use Rattle.trick_crew_clerks.specs.Staffs.{AreOfPost, HasEnded, IsLeftBy, IsTakenIn, RunsAtPost};
ghost use Rattle.trick_turn.specs.Passes.{own, seen};
ghost use mathlib.Core.List.{IsPrefix};

use crate::shift::Shift;
use std::sync::Wait;
use std::thread::Threads;
use trick_model::Planned;
use trick_outside::{Gate, Running};
use trick_post::{Clerk, ShutPost};

/// Takes in the clerk of each of these shifts, which were not started.
pub(crate) fn take_each_in<P: Planned, G: Gate + Drop, R: Wait + Drop>(
    post: &mut ShutPost<P>,
    here: Vec<Shift<P, G, R>>,
)
    requires post { ∥ AreOfPost (arc_value post.old.lock) here.items ∥₁ }
    ensures lock { post.new.lock ≡ post.old.lock }
    ensures own { own post.new.pass ≡ own post.old.pass }
    ensures post { IsPrefix (seen post.old.pass) (seen post.new.pass) }
    ensures here { All (IsTakenIn post.new.pass) here.items }
{
    let mut here = here;
    while let Some(shift) = here.pop() {
        post.take_in(shift.into_clerk());
    }
}

// Waits for a shift, and gives its clerk.
fn clerk_of<
    P: Planned + Send + 'static,
    G: Gate + Send + Sync + Drop + 'static,
    R: Threads + Wait + Copy + Send + Drop + 'static,
>(rt: &R, running: Running<Shift<P, G, R>>) -> Clerk<P>
    ensures { IsLeftBy running result }
{
    running.finish(rt)
}

/// Waits for each of these shifts, and takes its clerk in.
pub(crate) fn wait_for_each<
    P: Planned + Send + 'static,
    G: Gate + Send + Sync + Drop + 'static,
    R: Threads + Wait + Copy + Send + Drop + 'static,
>(rt: &R, post: &mut ShutPost<P>, away: Vec<Running<Shift<P, G, R>>>)
    requires post { ∥ All (RunsAtPost (arc_value post.old.lock)) away.items ∥₁ }
    ensures own { own post.new.pass ≡ own post.old.pass }
    ensures post { IsPrefix (seen post.old.pass) (seen post.new.pass) }
    ensures away { All (HasEnded post.new.pass) away.items }
{
    let mut away = away;
    while let Some(running) = away.pop() {
        let clerk = clerk_of(rt, running);
        post.take_in(clerk);
    }
}
