//! How the queues of a session are made.

ghost use Rattle.std.specs.Prelude.{IfOk};
ghost use Rattle.trick_serve_seats.specs.Seats.{AreFresh};

use crate::queues::Queues;
use std::alloc::{AllocError, Global};
use std::sync::Arc;
use trick_turn::Bell;
use trick_wire::channel;

/// How many lines an inbox has room for, and how many messages an outbox.
const ROOM: usize = 1024;

/// How many causes of a stop there is room for: a writer puts one at most.
const CAUSES: usize = 2;

impl Queues {
    /// The queues of one session, in which nothing is yet.
    pub fn new(alloc: Global, bell: &Arc<Bell>) -> Result<Queues, AllocError>
        ensures { IfOk result AreFresh }
    {
        let (fills, inbox) = channel(alloc, ROOM)?;
        let (outbox, empties) = channel(alloc, ROOM)?;
        let (tells, causes) = channel(alloc, CAUSES)?;
        let reader_bell = Arc::try_clone(bell)?;
        let writer_bell = Arc::try_clone(bell)?;
        Ok(Queues {
            fills,
            inbox,
            outbox,
            empties,
            tells,
            causes,
            reader_bell,
            writer_bell,
        })
    }
}
