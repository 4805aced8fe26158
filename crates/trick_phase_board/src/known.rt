/// What a board knows of the stages of jobs without a search.
#[derive(Drop)]
pub struct Known {
    /// By thread, how many of its first jobs are known not to wait and not to be in flight.
    pub(crate) passed: Vec<usize>,
    /// By job, how many of those that a due job depends on, but for those before it on its thread, are
    /// not committed.
    pub(crate) counts: Vec<usize>,
    /// By job, the rank of a due job among those of its thread, from the last one on, which has 1.
    pub(crate) ranks: Vec<usize>,
    /// By thread, how many of its due jobs are not committed.
    pub(crate) left: Vec<usize>,
}
