//! The caller of a session, who listens to its client and sends it messages.

ghost use Rattle.trick_wire.specs.Ends.{IsSamePutter, IsSameTaker};

use std::alloc::Global;
use std::process::Abort;
use std::rt::Clock;
use std::sync::{Arc, Wait};
use trick_turn::Bell;
use trick_wire::{Heard, Message, Putter, Taker, WriteStop};

/// What a caller has of a session while its client is served.
#[derive(Drop)]
pub struct Ends {
    pub inbox: Taker<Heard>,
    pub outbox: Putter<Message>,
    pub causes: Taker<WriteStop>,
    /// Rung after each entry of the inbox and of the causes.
    pub bell: Arc<Bell>,
}

/// What is done with a client while its reader and its writer run.
pub trait Caller {
    /// Listens and sends.
    fn talk<R: Wait + Clock + Abort>(&mut self, rt: &R, alloc: Global, ends: &mut Ends)
        ensures inbox { IsSameTaker ends.old.inbox ends.new.inbox }
        ensures outbox { IsSamePutter ends.old.outbox ends.new.outbox }
        ensures causes { IsSameTaker ends.old.causes ends.new.causes };
}
