use trick_base::{Items, Word};
use trick_lang::Cell;

/// A data record group: cells whose numbers are written as rows of a log.
#[derive(Debug, Drop)]
pub struct Group {
    pub name: Word,
    /// A row is due at each tic that the cycle divides; from 1 to 10^15 tics.
    pub cycle: u64,
    /// Whether a row is written only where it differs from the last one.
    pub changes: bool,
    /// In the order of the row, at most 256.
    pub cells: Items<Cell>,
}
