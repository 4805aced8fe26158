use crate::Summary;

/// How a replay ended.
#[derive(Clone, Copy, Debug, PartialEq, Eq)]
pub enum Replayed {
    /// The journal fits, and the run under it is over: what is said of its last state, and how many sessions
    /// joined in the journal that was written.
    Ended { ended: Summary, joins: u64 },
    /// The journal does not fit: its end, and the turn at which the run is over, or one past the end.
    Length { kept: u64, given: u64 },
}
