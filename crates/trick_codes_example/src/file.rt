ghost use Rattle.std.specs.Prelude.{◌≡◌, true};
ghost use Rattle.trick_codes.specs.Lines.{is_one_line};

use trick_base::{Items, Word};
use trick_codes::Range;

/// A gauge: its name, of one line, and the numbers that it can show.
#[derive(Debug, Drop)]
pub struct Gauge {
    pub name: Word,
    pub range: Range,
    pub ghost one_line: { is_one_line name ≡ true },
}

/// Whether a panel runs or is frozen.
#[derive(Clone, Copy, Debug, PartialEq, Eq)]
pub enum Mode {
    Run,
    Freeze,
}

/// What a panel shows.
#[derive(Debug, Drop)]
pub struct Readings {
    /// The turn, at most 2^63 - 1.
    pub turn: u64,
    pub mode: Mode,
    /// The number that each gauge shows, in its range.
    pub values: Items<i64>,
    /// The numbers that the gauges showed before, if any.
    pub last: Option<Items<i64>>,
    /// Notes, at most 1,000, each at most 4294967295.
    pub notes: Items<u64>,
}
