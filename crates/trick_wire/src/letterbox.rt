//! The end of an inbox that a reader fills.

ghost use Rattle.std.specs.Prelude.{◌≡◌, ◌++◌, ◌∷◌, ◌⊎◌, [], List, ℕ, true, false};
ghost use Rattle.trick_wire.specs.Ends.{IsSamePutter, put_by};
ghost use Rattle.trick_wire.specs.Puts.{said};

use crate::line_feed::LineFeed;
use crate::{Heard, Putter, ReadStop};
use std::sync::{Arc, Wait};
use trick_turn::Bell;

/// An inbox, and the bell of the one who empties it, which is rung after each entry.
#[derive(Drop)]
pub(crate) struct Letterbox {
    pub(crate) inbox: Putter<Heard>,
    pub(crate) bell: Arc<Bell>,
}

impl Letterbox {
    // Puts an entry, and rests until there is room. False where the inbox was full and closed.
    fn put<R: Wait>(&mut self, rt: &R, entry: Heard) -> bool
        ensures queue { IsSamePutter self.old.inbox self.new.inbox }
        ensures put { result ≡ true → put_by self.new.inbox ≡ put_by self.old.inbox ++ entry ∷ [] }
        ensures closed { result ≡ false → put_by self.new.inbox ≡ put_by self.old.inbox }
    {
        let mut mine = entry;
        for _ in rt.forever() {
            let mark = self.inbox.mark();
            match self.inbox.push(rt, mine) {
                Ok(()) => {
                    self.bell.ring();
                    return true;
                }
                Err(back) => mine = back,
            }
            if self.inbox.is_closed() {
                return false;
            }
            self.inbox.rest(rt, mark);
        }
        unreachable!()
    }

    // Puts all lines that wait in the feed. False where the inbox was full and closed.
    pub(crate) fn put_lines<R: Wait>(&mut self, rt: &R, feed: &mut LineFeed) -> bool
        ensures queue { IsSamePutter self.old.inbox self.new.inbox }
        ensures held { feed.new.held ≡ feed.old.held }
        ensures all { result ≡ true → feed.new.waiting ≡ [] }
        ensures put { result ≡ true
            → put_by self.new.inbox ≡ put_by self.old.inbox ++ said feed.old.waiting }
        ensures some { (some : List (List ℕ)) × (rest : List (List ℕ)) × (feed.old.waiting ≡ some ++ rest)
            × (put_by self.new.inbox ≡ put_by self.old.inbox ++ said some) }
    {
        for _ in rt.forever() {
            let Some(line) = feed.pull() else {
                return true;
            };
            if !self.put(rt, Heard::Line(line)) {
                return false;
            }
        }
        unreachable!()
    }

    // Puts the last entry, which says why the reader stops. `Closed` where the inbox was full and closed.
    pub(crate) fn put_last<R: Wait>(&mut self, rt: &R, last: Heard, stop: ReadStop) -> ReadStop
        ensures queue { IsSamePutter self.old.inbox self.new.inbox }
        ensures last { ((result ≡ stop) × (put_by self.new.inbox ≡ put_by self.old.inbox ++ last ∷ []))
            ⊎ ((result ≡ ReadStop.Closed) × (put_by self.new.inbox ≡ put_by self.old.inbox)) }
    {
        if self.put(rt, last) {
            stop
        } else {
            ReadStop::Closed
        }
    }
}
