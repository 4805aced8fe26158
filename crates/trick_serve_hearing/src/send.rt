//! A message that is handed to a session.

ghost use Rattle.std.specs.Prelude.{◌≡◌};
ghost use Rattle.trick_serve_hearing.specs.Messages.{IsHanded};
ghost use Rattle.trick_serve_hearing.specs.Sides.{side_of};

use crate::Seat;
use std::sync::Wait;
use trick_wire::Message;

/// Puts a message into the outbox of a session. Where the outbox is full the message is left out, and so are all
/// others from then on.
pub fn hand<R: Wait>(rt: &R, seat: &mut Seat, message: Message)
    ensures { IsHanded message (side_of seat.old) (side_of seat.new) }
{
    if seat.slow {
        return;
    }
    if seat.outbox.push(rt, message).is_err() {
        seat.slow = true;
    }
}
