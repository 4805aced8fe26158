ghost use Rattle.std.specs.Prelude.{◌≤◌, [], IsTrue};
ghost use Rattle.trick_model.specs.Journal.{are_in_range, are_joined, are_rising, are_within};
ghost use Rattle.trick_model.specs.Time.{last_turn};

use crate::Entry;
use trick_base::Items;

/// What came to a run from outside, turn by turn. Its ghost fields are facts that every journal
/// keeps.
#[derive(Drop)]
pub struct Journal {
    /// The turn at which it begins.
    pub from: u64,
    /// The entries with their turns, in order.
    pub entries: Items<(u64, Entry)>,
    /// The turn at which the run is over, at most 2^63 - 1.
    pub end: u64,
    // Turns, sessions, threads and lines are in their ranges.
    pub ghost in_range: { IsTrue (are_in_range entries) },
    // Turns never fall, and publications of a turn come last, by rising thread.
    pub ghost rising: { IsTrue (are_rising entries) },
    // No turn is below the first one, and the end is above the turn of each entry.
    pub ghost within: { IsTrue (are_within from end entries) },
    // Sessions join by rising number, and only those that are there speak and leave.
    pub ghost joined: { IsTrue (are_joined 0 [] entries) },
    pub ghost forward: { from ≤ end },
    pub ghost end_right: { end ≤ last_turn },
}
