//! The places for sessions: 64 of them, each taken by a client that comes and free again once its session left.

ghost use Rattle.std.specs.Prelude.{◌≡◌, ◌+◌, ◌<◌, ◌≤◌, ◌∷◌, [], false, true};
ghost use Rattle.trick_serve_seats.specs.Departures.{is_over, left_of};
ghost use Rattle.trick_wire.specs.Ends.{IsSameTaker, taken_by};

use crate::Departure;
use std::sync::Wait;
use trick_wire::Taker;

/// How many sessions live at once.
pub(crate) const PLACES: u32 = 64;

/// The queue of what the caller tells, how many places are free, and whether it told that the run is over.
#[derive(Drop)]
pub struct Places {
    pub gone: Taker<Departure>,
    pub free: u32,
    pub over: bool,
    pub ghost told: { over ≡ true → is_over (taken_by gone) ≡ true },
}

// How many places are free after this was told.
fn freed(free: u32, told: Departure) -> u32
    ensures most { result ≤ free + left_of (told ∷ []) }
    ensures least { free ≤ result }
{
    match told {
        Departure::Session(_) => free.saturating_add(1),
        Departure::Run => free,
    }
}

// Whether the run is over after this was told.
fn ends(over: bool, told: Departure) -> bool
    ensures { result ≡ true → over ≡ false → is_over (told ∷ []) ≡ true }
{
    match told {
        Departure::Session(_) => over,
        Departure::Run => true,
    }
}

impl Places {
    /// All places are free, and the caller has told nothing yet that is looked at here.
    pub fn new(gone: Taker<Departure>) -> Places
        ensures gone { result.gone ≡ gone }
        ensures free { result.free ≡ 64 }
    {
        Places {
            gone,
            free: PLACES,
            over: false,
        }
    }

    // Takes one thing that the caller told. False where nothing waits.
    fn look<R: Wait>(&mut self, rt: &R) -> bool
        ensures gone { IsSameTaker self.old.gone self.new.gone }
        ensures left { self.new.free + left_of (taken_by self.old.gone)
            ≤ self.old.free + left_of (taken_by self.new.gone) }
        ensures free { self.old.free ≤ self.new.free }
    {
        match self.gone.pop(rt) {
            None => false,
            Some(told) => {
                self.free = freed(self.free, told);
                self.over = ends(self.over, told);
                true
            }
        }
    }

    /// Whether the caller has told that the run is over. It takes all that waits.
    pub fn is_over<R: Wait>(&mut self, rt: &R) -> bool
        ensures gone { IsSameTaker self.old.gone self.new.gone }
        ensures left { self.new.free + left_of (taken_by self.old.gone)
            ≤ self.old.free + left_of (taken_by self.new.gone) }
        ensures free { self.old.free ≤ self.new.free }
        ensures over { result ≡ true → is_over (taken_by self.new.gone) ≡ true }
    {
        for _ in rt.forever() {
            if self.over {
                return true;
            }
            if !self.look(rt) {
                return false;
            }
        }
        unreachable!()
    }

    /// Rests until a place is free. False where the run is over.
    pub fn wait<R: Wait>(&mut self, rt: &R) -> bool
        ensures gone { IsSameTaker self.old.gone self.new.gone }
        ensures left { self.new.free + left_of (taken_by self.old.gone)
            ≤ self.old.free + left_of (taken_by self.new.gone) }
        ensures free { result ≡ true → 0 < self.new.free }
        ensures over { result ≡ false → is_over (taken_by self.new.gone) ≡ true }
    {
        for _ in rt.forever() {
            let mark = self.gone.mark();
            if self.is_over(rt) {
                return false;
            }
            if 0 < self.free {
                return true;
            }
            self.gone.rest(rt, mark);
        }
        unreachable!()
    }

    /// Rests until the run is over.
    pub fn wait_for_end<R: Wait>(&mut self, rt: &R)
        ensures gone { IsSameTaker self.old.gone self.new.gone }
        ensures left { self.new.free + left_of (taken_by self.old.gone)
            ≤ self.old.free + left_of (taken_by self.new.gone) }
        ensures over { is_over (taken_by self.new.gone) ≡ true }
    {
        for _ in rt.forever() {
            let mark = self.gone.mark();
            if self.is_over(rt) {
                return;
            }
            self.gone.rest(rt, mark);
        }
        unreachable!()
    }
}
