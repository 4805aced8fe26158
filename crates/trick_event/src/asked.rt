/// What reads, events and clients asked for that is done later in a turn.
#[derive(Clone, Copy, Debug, PartialEq, Eq)]
pub struct Asked {
    /// Freeze is to be entered: at the frame's end, or at once where a client asked for it.
    pub freeze: bool,
    /// A checkpoint is to be written at the end of the turn.
    pub checkpoint: bool,
}
