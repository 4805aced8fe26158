//! How many of each an input may have.

/// Pairs of jobs of which one waits for the other.
pub(crate) const PAIR_LIMIT: usize = 512;

/// Lists of actions that are read at a time.
pub(crate) const READ_LIMIT: usize = 4_096;

/// Cells of one group.
pub(crate) const COLUMN_LIMIT: usize = 256;

/// Groups that are added.
pub(crate) const GROUP_LIMIT: usize = 64;

/// Events that are added.
pub(crate) const EVENT_LIMIT: usize = 256;
