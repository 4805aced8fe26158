//! The entries of a hall's history.
use std::collections::LinkedList;
use trick_lang::JobId;
use trick_model::Flags;

/// What one turn did. The first number is that of the pass that had the turn: the chief's is 1, and the hands' are
/// those from 2 on. Only proofs have such a value.
pub enum Entry {
    /// A tic was opened: the numbers of the memory, the flags of the jobs, and the tic.
    Open(u64, LinkedList<i64>, Flags, u64),
    /// A job was taken.
    Take(u64, JobId),
    /// A job was committed.
    Commit(u64, JobId),
    /// The tic was closed.
    Close(u64),
    /// The hall was shut.
    Shut(u64),
}
