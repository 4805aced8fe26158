use trick_base::{Items, Word};
use trick_lang::Cell;

/// A client's session.
#[derive(Debug, Drop)]
pub struct Session {
    /// From 1 to 4294967295.
    pub number: u32,
    /// The list of variables, by name; one that names no cell is shown as `BAD_REF`.
    pub variables: Items<(Word, Option<Cell>)>,
    /// The cycle of samples, from 1 to 10^15 tics.
    pub cycle: u64,
    pub paused: bool,
    /// The copy mode, 1 or 2.
    pub copy: u8,
    /// Whether this turn's lines ask for a sample.
    pub send: bool,
    /// Whether the session ends with this turn.
    pub leaving: bool,
}
