/// The mode of a run.
#[derive(Clone, Copy, Debug, PartialEq, Eq)]
pub enum Mode {
    /// Time passes.
    Run,
    /// No time passes, until a client resumes the run.
    Freeze,
    /// The run is over.
    Shutdown,
}
