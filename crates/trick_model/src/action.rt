use trick_base::Word;

/// What the lines of an input and of a client say that is to be done. Jobs, cells, groups and events
/// go by their names; a [`Deed`](crate::Deed) has their numbers.
#[derive(Debug, Drop)]
pub enum Action {
    /// The cell of this full name gets a number.
    SetCell { name: Word, number: i128 },
    /// A job, by name and instance, is turned on or off.
    SetJob { name: Word, instance: u64, on: bool },
    Freeze,
    /// The run stops, after a tic where one is given.
    Stop { at: Option<u64> },
    /// A checkpoint is to be written at the end of the turn.
    Checkpoint,
    /// A group is turned on or off.
    SetGroup { name: Word, on: bool },
    /// An event is activated or deactivated.
    SetEvent { name: Word, on: bool },
}
