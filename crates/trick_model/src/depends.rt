use trick_lang::JobId;

/// In a tic at which both are due, the target waits for the depended job.
#[derive(Clone, Copy, Debug, PartialEq, Eq)]
pub struct Depends {
    pub target: JobId,
    pub depended: JobId,
}
