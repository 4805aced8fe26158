//! The source of entries of a run with clients.

ghost use Rattle.std.specs.Prelude.{◌≡◌, ◌+◌, ◌≤◌, [], false, length, not, true};
ghost use Rattle.trick_serve_hearing.specs.Clients.{AreOfClients, IsLast, IsSilent, has_lack};
ghost use Rattle.trick_serve_hearing.specs.Rules.{AreSeated};
ghost use Rattle.trick_serve_seats.specs.Departures.{left_of};
ghost use Rattle.trick_wire.specs.Ends.{put_by, taken_by};

use crate::Roll;
use std::alloc::Global;
use std::sync::Arc;
use trick_serve_door::{Comes, Departure};
use trick_serve_hearing::Seat;
use trick_turn::Bell;
use trick_wire::{Putter, Taker};

/// The clients of a run as its source of entries.
#[derive(Drop)]
pub struct Served<I, O, R> {
    pub(crate) rt: R,
    pub(crate) alloc: Global,
    // Rung by readers, writers and the acceptor.
    pub(crate) bell: Arc<Bell>,
    pub(crate) roll: Roll,
    // The sessions that can be sent messages.
    pub(crate) reached: Vec<u32>,
    // The clients that come.
    pub(crate) coming: Taker<Comes<I, O>>,
    // The numbers of those that left.
    pub(crate) gone: Putter<Departure>,
    // It was heard whether the door gave a client at once.
    pub(crate) asked: bool,
    // No client comes any more.
    pub(crate) over: bool,
    // There was no memory once.
    pub(crate) broke: bool,
    // The door was heard, and nothing came at the last look for a list.
    pub(crate) idle: bool,
    // The mark of the bell before that look.
    pub(crate) mark: u64,
    // Something had come of the door before its first client.
    pub(crate) silent: bool,
    // Session n is of the n-th client that was taken of those that come.
    ghost clients: { AreOfClients (taken_by coming) roll.seats.items },
    // That no client comes any more has its reason.
    ghost last: { over ≡ true → IsLast (taken_by coming) roll.seats.items },
    ghost reach: { AreSeated reached.items roll.seats.items },
    // What came first was no client.
    ghost first: { silent ≡ true → IsSilent (taken_by coming) },
    // Where the door was heard and gave no client, something else had come of it.
    ghost quiet: { asked ≡ true → roll.seats.items ≡ [] → silent ≡ true },
    // A look at which nothing came was one after the door was heard, with memory.
    ghost calm: { idle ≡ true → (asked ≡ true) × (broke ≡ false) },
    // Nor did it come that there was no memory.
    ghost memory: { broke ≡ false → has_lack (taken_by coming) ≡ false },
    // Those of which it was told that they left are live no more.
    ghost departed: { left_of (put_by gone) + length roll.live.items ≤ length roll.seats.items },
}

/// What a source of entries hands out at the end of a run.
#[derive(Drop)]
pub struct Finished<I, O> {
    /// The n-th is of the n-th client that was taken of `coming`.
    pub seats: Vec<Seat>,
    /// The clients that came. Those that wait there have no seat.
    pub coming: Taker<Comes<I, O>>,
    /// Which sessions left, and that the run is over.
    pub gone: Putter<Departure>,
}

impl<I, O, R> Served<I, O, R> {
    /// How many clients have joined.
    pub fn count(&self) -> usize
        ensures { result ≡ length self.now.roll.seats.items }
    {
        self.roll.seats.len()
    }

    /// Whether there was memory for each list that it was asked for. Where there was not, it gives none from then on.
    pub fn is_whole(&self) -> bool
        ensures { result ≡ not self.now.broke }
    {
        !self.broke
    }
}
