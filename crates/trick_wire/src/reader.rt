//! The reader of a session: it cuts its client's bytes into lines, and puts them into the inbox.

ghost use Rattle.std.specs.Prelude.{◌≡◌, ◌++◌, [], List, ℕ, Option, MatchOption};
ghost use Rattle.trick_wire.specs.Ends.{IsSamePutter, put_by};
ghost use Rattle.trick_wire.specs.HasRead.{HasRead, IsReading};
ghost use Rattle.trick_wire.specs.Puts.{HasPut, IsFed};

use crate::letterbox::Letterbox;
use crate::line_feed::LineFeed;
use crate::{Heard, Putter, ReadStop};
use std::alloc::Global;
use std::sync::{Arc, Wait};
use trick_command::FeedFault;
use trick_outside::{LinkIn, Read1};
use trick_turn::Bell;

/// What a reader hands back once it has stopped.
#[derive(Drop)]
pub struct ReaderDone<I> {
    pub link: I,
    pub stop: ReadStop,
    pub inbox: Putter<Heard>,
}

// Takes in the bytes of one read: puts all lines that they end, and says why the reader stops, where it does.
fn take_in<R: Wait>(
    rt: &R,
    letters: &mut Letterbox,
    feed: &mut LineFeed,
    piece: &[u8],
) -> Option<ReadStop>
    ensures queue { IsSamePutter letters.old.inbox letters.new.inbox }
    ensures fed { (read : List ℕ) → IsFed feed.old read (put_by letters.old.inbox) → feed.old.waiting ≡ []
        → MatchOption result
        (IsFed feed.new (read ++ piece.now) (put_by letters.new.inbox) × (feed.new.waiting ≡ []))
        (λ stop. HasPut Prim.⊥ Prim.⊥ (read ++ piece.now) stop (put_by letters.new.inbox)) }
{
    let pushed = feed.push(piece);
    if !letters.put_lines(rt, feed) {
        return Some(ReadStop::Closed);
    }
    match pushed {
        Ok(()) => None,
        Err(FeedFault::LongLine) => Some(letters.put_last(rt, Heard::LongLine, ReadStop::LongLine)),
        Err(FeedFault::OutOfMemory) => Some(letters.put_last(
            rt,
            Heard::OutOfMemory,
            ReadStop::OutOfMemory,
        )),
    }
}

// Reads once, and puts all lines that the bytes end.
fn step<I: LinkIn, R: Wait>(
    rt: &R,
    link: &mut I,
    letters: &mut Letterbox,
    feed: &mut LineFeed,
    buffer: &mut [u8],
) -> Option<ReadStop>
    ensures queue { IsSamePutter letters.old.inbox letters.new.inbox }
    ensures read { (start : Option (List ℕ)) (before : ℕ)
        → IsReading start (I.holds link.old) before (I.failures link.old) feed.old (put_by letters.old.inbox)
        → feed.old.waiting ≡ []
        → MatchOption result
        (IsReading start (I.holds link.new) before (I.failures link.new) feed.new (put_by letters.new.inbox)
        × (feed.new.waiting ≡ []))
        (λ stop. HasRead start (I.holds link.new) before (I.failures link.new) stop (put_by letters.new.inbox)) }
{
    match link.read(buffer) {
        Read1::Failed => Some(letters.put_last(rt, Heard::LinkFault, ReadStop::LinkFault)),
        Read1::End => Some(letters.put_last(rt, Heard::End, ReadStop::End)),
        Read1::Count(count) => take_in(rt, letters, feed, &buffer[..count]),
    }
}

// Reads until the reader stops, and says why.
fn read_lines<I: LinkIn, R: Wait>(
    rt: &R,
    alloc: Global,
    link: &mut I,
    letters: &mut Letterbox,
) -> ReadStop
    ensures queue { IsSamePutter letters.old.inbox letters.new.inbox }
    ensures read { put_by letters.old.inbox ≡ []
        → HasRead (I.holds link.old) (I.holds link.new) (I.failures link.old) (I.failures link.new) result
        (put_by letters.new.inbox) }
{
    let mut buffer = [0u8; 1024];
    let mut feed = LineFeed::new(alloc);
    for _ in rt.forever() {
        if let Some(stop) = step(rt, link, letters, &mut feed, &mut buffer) {
            return stop;
        }
    }
    unreachable!()
}

/// Puts the lines of a link into an inbox, each line of one read before the next read, and then why no line comes any
/// more: the end, a line of 4,097 bytes and more, a fault or want of memory. Where the inbox is full it rests until
/// there is room, and it stops there if the inbox was closed. After each entry it rings the bell.
pub fn read_all<I: LinkIn, R: Wait>(
    rt: &R,
    alloc: Global,
    link: I,
    inbox: Putter<Heard>,
    bell: Arc<Bell>,
) -> ReaderDone<I>
    ensures queue { IsSamePutter inbox result.inbox }
    ensures read { put_by inbox ≡ []
        → HasRead (I.holds link) (I.holds result.link) (I.failures link) (I.failures result.link) result.stop
        (put_by result.inbox) }
{
    let mut link = link;
    let mut letters = Letterbox { inbox, bell };
    let stop = read_lines(rt, alloc, &mut link, &mut letters);
    let Letterbox { inbox, .. } = letters;
    ReaderDone { link, stop, inbox }
}
