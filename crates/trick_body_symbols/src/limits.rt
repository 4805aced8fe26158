//! The limits of the profile.

/// How many items a list may have.
pub const LIST_LIMIT: usize = 4096;

/// The largest phase of a job.
pub const PHASE_LIMIT: u64 = 65_534;

/// How many levels may nest in a condition, and in a file.
pub const NESTING_LIMIT: usize = 64;

/// How many levels may nest in the braces of a method, inside those of its class.
pub const METHOD_LEVELS: usize = 62;
