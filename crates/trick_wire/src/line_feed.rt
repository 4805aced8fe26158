//! A feed of a client's bytes, whose lines are known to be lines.

ghost use Rattle.std.specs.Prelude.{◌≡◌, ◌≢◌, ◌↔◌, ◌++◌, [], Err, None};
ghost use Rattle.std.specs.Option.{option_to_list};
ghost use Rattle.trick_command.specs.Fed.{HasTaken, fed, nothing_fed};

use crate::FedLine;
use std::alloc::Global;
use std::marker::Model;
use trick_command::{Feed, FeedFault};

/// A feed whose lines have at most 4,096 bytes and no line feed. Contracts see it as the feed.
#[derive(Drop)]
pub(crate) struct LineFeed {
    feed: Feed,
}

impl Model for LineFeed {
    ghost use Rattle.trick_command.specs.Fed.{Fed};
    ghost use Rattle.trick_wire.specs.Feeding.{HoldsLines};

    ghost Value = { Fed };

    ghost view = { λ lines. lines.feed };

    ghost invariant = { λ lines. HoldsLines lines.feed };
}

impl LineFeed {
    // A feed to which no byte has come.
    pub(crate) fn new(alloc: Global) -> LineFeed
        ensures { result ≡ nothing_fed }
    {
        LineFeed {
            feed: Feed::new(alloc),
        }
    }

    // Takes a piece of the client's bytes.
    pub(crate) fn push(&mut self, piece: &[u8]) -> Result<(), FeedFault>
        ensures bytes { result ≢ Err FeedFault.OutOfMemory → self.new ≡ fed self.old piece.now }
        ensures long { (result ≡ Err FeedFault.LongLine) ↔ (self.new.held ≡ None) }
        ensures taken { HasTaken self.old piece.now self.new }
    {
        self.feed.push(piece)
    }

    // Takes out the first of the lines that wait; none exactly where none waits.
    pub(crate) fn pull(&mut self) -> Option<FedLine>
        ensures line { self.old.waiting ≡ option_to_list result ++ self.new.waiting }
        ensures none { (result ≡ None) ↔ (self.old.waiting ≡ []) }
        ensures held { self.new.held ≡ self.old.held }
    {
        match self.feed.pull() {
            Some(line) => Some(FedLine::new(line)),
            None => None,
        }
    }
}
