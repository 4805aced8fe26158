/// When an action is done.
#[derive(Clone, Copy, Debug, PartialEq, Eq)]
pub enum Moment {
    /// In a tic, at most 10^15, by a read or an event.
    Tic(u64),
    /// Between two tics, by a client.
    Between,
}
