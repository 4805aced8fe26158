//! Limits of what a simulation may be that more than one crate holds to.

/// The latest tic that a time can be: 10^15 tics of a microsecond, a thousand million seconds.
pub const TIC_LIMIT: u64 = 1_000_000_000_000_000;

/// The most cells that a memory has.
pub const CELL_LIMIT: u64 = 65_536;
