//! What the acceptor tells its caller of the clients that the door gives.

ghost use Rattle.std.specs.Prelude.{◌≡◌, []};
ghost use Rattle.trick_wire.specs.Ends.{put_by, taken_by};

use std::snapshot::Snapshot;
use trick_wire::{Heard, Message, Putter, Taker, WriteStop};

/// A client that was taken, as its caller gets it. Its reader and its writer run in threads of their own, unless a
/// start was refused.
///
/// The n-th arrival is client number n. Nothing was put into the outbox yet, and nothing taken of the inbox and of the
/// causes. When the session leaves, and at the end of the run, the caller closes the inbox and the outbox.
#[derive(Drop)]
pub struct Arrival<I, O> {
    /// The lines that the client sends, and after them why no line comes any more.
    pub inbox: Taker<Heard>,
    /// The messages to the client.
    pub outbox: Putter<Message>,
    /// Why the writer stopped, where it was not closed in order.
    pub causes: Taker<WriteStop>,
    /// The link in which its bytes come, as the door gave it.
    pub input: Snapshot<I>,
    /// The link in which messages go to it, as the door gave it.
    pub output: Snapshot<O>,
    /// A thread was refused to it, so it is not served: its inbox stays empty.
    pub refused: bool,
    pub ghost no_line: { taken_by inbox ≡ [] },
    pub ghost no_message: { put_by outbox ≡ [] },
    pub ghost no_cause: { taken_by causes ≡ [] },
}

/// What the acceptor puts into the queue to its caller. After the first of `Over` and `OutOfMemory` comes no client.
/// The last of all is `Closed`.
#[derive(Drop)]
pub enum Comes<I, O> {
    /// A client.
    Client(Arrival<I, O>),
    /// The door was asked the first time, and no client had come. It is told once, so that the caller can wait for the
    /// first answer of the door.
    Nobody,
    /// No client comes any more: the door ended or failed, or client 4294967295 was taken.
    Over,
    /// There was no memory for the next client.
    OutOfMemory,
    /// The caller told that the run is over, and all that came stands before this.
    Closed,
}
