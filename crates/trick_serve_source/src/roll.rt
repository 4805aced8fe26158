//! The sessions by their numbers.

ghost use Rattle.trick_serve_hearing.specs.Rules.{AreSeated};

use trick_model::Entry;
use trick_serve_hearing::Seat;

/// The seats of all sessions, the sessions that are live, and the list of the next turn as far as it was gathered.
#[derive(Drop)]
pub struct Roll {
    // Session n has place n - 1.
    pub(crate) seats: Vec<Seat>,
    // The sessions that were live as the list began, and those that joined since, in rising number.
    pub(crate) live: Vec<u32>,
    pub(crate) list: Vec<Entry>,
    ghost seated: { AreSeated live.items seats.items },
}
