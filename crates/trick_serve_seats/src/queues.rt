//! The queues of a session, which are made before its client is there.

ghost use Rattle.std.specs.Prelude.{◌≡◌, []};
ghost use Rattle.trick_wire.specs.Ends.{put_by, taken_by};

use std::sync::Arc;
use trick_turn::Bell;
use trick_wire::{Heard, Message, Putter, Taker, WriteStop};

/// Both ends of a session's three queues, and the bell of its caller, once for the reader and once for the writer.
/// Nothing has gone through the caller's ends.
#[derive(Drop)]
pub struct Queues {
    pub fills: Putter<Heard>,
    pub inbox: Taker<Heard>,
    pub outbox: Putter<Message>,
    pub empties: Taker<Message>,
    pub tells: Putter<WriteStop>,
    pub causes: Taker<WriteStop>,
    pub reader_bell: Arc<Bell>,
    pub writer_bell: Arc<Bell>,
    pub ghost no_line: { taken_by inbox ≡ [] },
    pub ghost no_message: { put_by outbox ≡ [] },
    pub ghost no_cause: { taken_by causes ≡ [] },
}
