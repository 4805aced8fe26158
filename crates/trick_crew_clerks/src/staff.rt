//! How the shifts of a yard are started.
ghost use Rattle.std.specs.Prelude.{◌≡◌, ◌+◌, ◌++◌, ◌∷◌, ◌<◌, ◌≤◌, [], reverse, vec_capacity, vec_len};
ghost use Rattle.trick_crew_clerks.specs.Serving.{HasServed};
ghost use Rattle.trick_crew_clerks.specs.Staffs.{AreShared, StayedAny};
ghost use Rattle.trick_outside.specs.Causes.{HasCause};
ghost use Rattle.trick_outside.specs.Works.{IsRefused, MatchBegun, Runs};

use crate::shift::Shift;
use std::alloc::Global;
use std::sync::Wait;
use std::thread::Threads;
use trick_model::Planned;
use trick_outside::{Begun, Gate, Running, Spawner, start};

/// The shifts of a yard, each in one of two lists.
#[derive(Drop)]
pub struct Staff<
    P: Planned + Send + 'static,
    G: Gate + Send + Sync + Drop + 'static,
    R: Threads + Wait + Copy + Send + Drop + 'static,
> {
    /// Those that were not started.
    pub(crate) here: Vec<Shift<P, G, R>>,
    /// Those that run in threads of their own.
    pub(crate) away: Vec<Running<Shift<P, G, R>>>,
}

impl<
    P: Planned + Send + 'static,
    G: Gate + Send + Sync + Drop + 'static,
    R: Threads + Wait + Copy + Send + Drop + 'static,
> Staff<P, G, R> {
    // Adds a shift, which was started or not.
    fn add(&mut self, begun: Begun<Shift<P, G, R>>)
        requires here { vec_len self.old.here < vec_capacity self.old.here }
        requires away { vec_len self.old.away < vec_capacity self.old.away }
        ensures here { MatchBegun begun (λ running. self.new.here.items ≡ self.old.here.items)
            (λ shift. self.new.here.items ≡ self.old.here.items ++ shift ∷ []) }
        ensures away { MatchBegun begun (λ running. self.new.away.items ≡ self.old.away.items ++ running ∷ [])
            (λ shift. self.new.away.items ≡ self.old.away.items) }
        ensures here_room { vec_len self.new.here ≤ vec_len self.old.here + 1 }
        ensures away_room { vec_len self.new.away ≤ vec_len self.old.away + 1 }
        ensures here_capacity { vec_capacity self.new.here ≡ vec_capacity self.old.here }
        ensures away_capacity { vec_capacity self.new.away ≡ vec_capacity self.old.away }
    {
        match begun {
            Begun::Started(running) => self.away.push_reserved(running),
            Begun::Refused(shift) => self.here.push_reserved(shift),
        }
    }
}

// Starts a shift in a thread of its own, if the spawner and the system admit it.
fn start_shift<
    P: Planned + Send + 'static,
    G: Gate + Send + Sync + Drop + 'static,
    R: Threads + Wait + Copy + Send + Drop + 'static,
    S: Spawner,
>(rt: &R, alloc: Global, spawner: &mut S, shift: Shift<P, G, R>) -> Begun<Shift<P, G, R>>
    ensures work { MatchBegun result (Runs HasServed shift) (λ back. back ≡ shift) }
    ensures cause { HasCause (S.failures spawner.old) (S.failures spawner.new) (IsRefused result) }
{
    start(rt, alloc, spawner, shift)
}

/// Starts each of these shifts, the last one first, as far as the spawner and the system admit it. It takes no memory
/// but what a start takes.
pub(crate) fn start_each<
    P: Planned + Send + 'static,
    G: Gate + Send + Sync + Drop + 'static,
    R: Threads + Wait + Copy + Send + Drop + 'static,
    S: Spawner,
>(rt: &R, alloc: Global, spawner: &mut S, shifts: Vec<Shift<P, G, R>>, staff: &mut Staff<P, G, R>)
    requires nobody_here { staff.old.here.items ≡ [] }
    requires nobody_away { staff.old.away.items ≡ [] }
    requires here_room { vec_len staff.old.here + vec_len shifts ≤ vec_capacity staff.old.here }
    requires away_room { vec_len staff.old.away + vec_len shifts ≤ vec_capacity staff.old.away }
    ensures shared { AreShared HasServed shifts.items (reverse staff.new.here.items) (reverse staff.new.away.items) }
    ensures cause { HasCause (S.failures spawner.old) (S.failures spawner.new) (StayedAny staff.new.here.items) }
{
    let mut shifts = shifts;
    while let Some(shift) = shifts.pop() {
        let begun = start_shift(rt, alloc, spawner, shift);
        staff.add(begun);
    }
}
