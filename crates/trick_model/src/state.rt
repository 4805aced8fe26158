ghost use Rattle.std.specs.Prelude.{◌≡◌};
ghost use Rattle.trick_model.specs.State.{seen, taken_at};
ghost use Rattle.trick_model.specs.Turn.{runs as runs_of};

use crate::{Faults, Flags, Mode, Taken};
use trick_base::Items;
use trick_lang::Cells;

/// The count of turns stands still here.
pub const LAST_TURN: u64 = 9_223_372_036_854_775_807;

/// All that a run goes on from. Its memory is of any kind.
#[derive(Drop)]
pub struct State<M> {
    /// The turns that are done, at most 2^63 - 1.
    pub turn: u64,
    /// The next tic to run, at most 10^15 + 1.
    pub tic: u64,
    /// The first tic that is not run, at most 10^15 + 1.
    pub limit: u64,
    pub mode: Mode,
    pub memory: M,
    pub jobs: Flags,
    pub events: Flags,
    pub groups: Flags,
    /// For each group its last row, where it records on change and has one.
    pub last: Items<Option<Items<i64>>>,
    /// For each must-finish and asynchronous thread, in thread order, what it was given.
    pub taken: Items<Taken>,
    pub faults: Faults,
}

impl<M: Cells> State<M> {
    /// Whether a turn is a run frame: the mode is not Freeze, and the next tic is below the limit.
    pub fn runs(&self) -> bool
        ensures { result ≡ runs_of (seen M.numbers self.now) }
    {
        match self.mode {
            Mode::Freeze => false,
            Mode::Run | Mode::Shutdown => self.tic < self.limit,
        }
    }

    /// Whether the record of a place among the threads beside the tics is held. Past the last one none is.
    pub fn is_held(&self, place: usize) -> bool
        ensures { result ≡ (taken_at (seen M.numbers self.now) place).held }
    {
        match self.taken.as_slice().get(place) {
            Some(taken) => taken.held,
            None => false,
        }
    }
}
