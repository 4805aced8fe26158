use trick_lang::JobId;

/// A step of a schedule.
#[derive(Clone, Copy, Debug, PartialEq, Eq)]
pub enum Step {
    /// What the job reads is copied.
    Take(JobId),
    /// What the job makes of its copy is stored.
    Commit(JobId),
}
