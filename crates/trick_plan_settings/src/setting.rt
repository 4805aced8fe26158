use trick_model::Process;

/// What an input says of a thread.
#[derive(Clone, Copy, Debug, PartialEq, Eq)]
pub struct Setting {
    /// The process type that the input names the thread for; without one it is scheduled.
    pub process: Option<Process>,
    /// The cycle that the input names the thread for, from 1 to 10^15 tics; without one it is the
    /// software frame.
    pub cycle: Option<u64>,
}
