ghost use Rattle.std.specs.Prelude.{◌≡◌};
ghost use Rattle.trick_model.specs.State.{seen};
ghost use Rattle.trick_exec_alone.specs.Serial.{summary_of};

use crate::sum::sum_of;
use trick_lang::Cells;
use trick_model::State;

/// What a run says of its last state.
#[derive(Clone, Copy, Debug, PartialEq, Eq)]
pub struct Summary {
    /// The turns that were done, at most 2^63 - 1; those before a checkpoint that it started from count.
    pub turns: u64,
    /// The first tic that was not run, at most 10^15 + 1.
    pub tic: u64,
    /// How many faults there were; the count stands still at 2^64 - 1.
    pub faults: u64,
    /// The sum of all cells, wrapped to 64 bits.
    pub sum: i64,
}

/// What is said of a state that is the last.
pub fn summary_of<M: Cells>(state: &State<M>) -> Summary
    ensures { result ≡ summary_of (seen M.numbers state.now) }
{
    Summary {
        turns: state.turn,
        tic: state.tic,
        faults: state.faults.count(),
        sum: sum_of(&state.memory),
    }
}
