//! The place of one session.

ghost use Rattle.std.specs.Prelude.{◌≡◌, [], false, true, IsTrue};
ghost use Rattle.trick_serve_hearing.specs.Ended.{has_end};
ghost use Rattle.trick_wire.specs.Ends.{put_by, taken_by};

use trick_serve_door::{Arrival, Ends};
use trick_wire::{Heard, Message, Putter, Taker, WriteStop};

/// One session's ends of its queues, and how far the session is.
#[derive(Drop)]
pub struct Seat {
    pub inbox: Taker<Heard>,
    pub outbox: Putter<Message>,
    pub causes: Taker<WriteStop>,
    /// A message to it was left out.
    pub slow: bool,
    /// Its link has no byte left, and all its lines were taken.
    pub ended: bool,
    /// Its leave was listed.
    pub left: bool,
    /// A thread was refused to its client.
    pub refused: bool,
    ghost ends: { ended ≡ true → IsTrue (has_end (taken_by inbox)) },
}

impl Seat {
    /// The seat of a client that came. It has left already where a thread was refused to it.
    pub fn of<I: Drop, O: Drop>(arrival: Arrival<I, O>) -> Seat
        ensures left { result.left ≡ arrival.refused }
        ensures refused { result.refused ≡ arrival.refused }
        ensures slow { result.slow ≡ false }
        ensures inbox { result.inbox ≡ arrival.inbox }
        ensures outbox { result.outbox ≡ arrival.outbox }
        ensures causes { result.causes ≡ arrival.causes }
        ensures no_line { taken_by result.inbox ≡ [] }
        ensures no_message { put_by result.outbox ≡ [] }
        ensures no_cause { taken_by result.causes ≡ [] }
    {
        let Arrival {
            inbox,
            outbox,
            causes,
            refused,
            ..
        } = arrival;
        Seat {
            inbox,
            outbox,
            causes,
            slow: false,
            ended: false,
            left: refused,
            refused,
        }
    }

    /// The caller's ends of the session's queues, with which the session is ended.
    pub fn into_ends(self) -> Ends
        ensures inbox { result.inbox ≡ self.inbox }
        ensures outbox { result.outbox ≡ self.outbox }
        ensures causes { result.causes ≡ self.causes }
    {
        let Seat {
            inbox,
            outbox,
            causes,
            ..
        } = self;
        Ends {
            inbox,
            outbox,
            causes,
        }
    }
}
