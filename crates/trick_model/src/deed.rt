use trick_lang::{Cell, JobId};

/// What an action asks for, by numbers: after planning no name is looked up.
#[derive(Clone, Copy, Debug, PartialEq, Eq)]
pub enum Deed {
    /// A cell gets a number of its range.
    SetCell { cell: Cell, number: i64 },
    /// A job is turned on or off.
    SetJob { job: JobId, on: bool },
    Freeze,
    /// The run stops, after a tic where one is given, of at most 10^15.
    Stop { at: Option<u64> },
    /// A checkpoint is to be written at the end of the turn.
    Checkpoint,
    /// A group is turned on or off.
    SetGroup { group: usize, on: bool },
    /// An event is activated or deactivated.
    SetEvent { event: usize, on: bool },
}
