//! The writer of a session: it takes the messages out of the outbox, and writes them to its client.

ghost use Rattle.std.specs.Prelude.{◌≡◌, ◌++◌, ◌∷◌, ◌<◌, ◌≤◌, [], List, ℕ, Option};
ghost use Rattle.trick_wire.specs.Ends.{IsSamePutter, IsSameTaker, put_by, room_of, taken_by};
ghost use Rattle.trick_wire.specs.HasWritten.{HasWritten, cause_of, text_of};
ghost use Rattle.trick_outside.specs.Links.{Took};

use crate::{Message, Putter, Taker, WriteStop};
use std::sync::atomic::AtomicU64;
use std::sync::{Arc, Wait};
use std::time::Duration;
use trick_outside::{LinkOut, Taken1};
use trick_turn::Bell;

/// Microseconds that a writer sleeps where it has written all that waited. A message that comes meanwhile wakes nobody,
/// so that a run whose client is sent something in each of many short turns is not held up by waking the writer in each.
const PAUSE: u64 = 250;

/// What a writer hands back once it has stopped.
#[derive(Drop)]
pub struct WriterDone<O> {
    pub link: O,
    pub stop: WriteStop,
    pub outbox: Taker<Message>,
    pub causes: Putter<WriteStop>,
}

// Writes a whole message. `Closed` where all of it was taken.
pub(crate) fn write_whole<O: LinkOut>(link: &mut O, message: &[u8]) -> WriteStop
    ensures { HasWritten (O.holds link.old) (O.holds link.new) (O.failures link.old) (O.failures link.new) result
        (message.now ∷ []) }
{
    let mut at = 0;
    while at < message.len() {
        match link.write(&message[at..]) {
            Taken1::Took(count) => at += count,
            Taken1::Failed => return WriteStop::LinkFault,
            Taken1::OutOfMemory => return WriteStop::OutOfMemory,
        }
    }
    WriteStop::Closed
}

// Sleeps for the pause of a writer, whatever comes meanwhile.
fn pause<R: Wait>(rt: &R) {
    AtomicU64::new(0).park_timeout(rt, 0, Duration::from_micros(PAUSE));
}

// Sleeps for a pause where something was written just now, and else until after the mark something comes.
fn wait<R: Wait>(rt: &R, outbox: &Taker<Message>, mark: u64, has_written: bool) {
    if has_written {
        pause(rt);
    } else {
        outbox.rest(rt, mark);
    }
}

// Writes each message whole, until the outbox was closed and is empty, or the link takes no more.
fn write_messages<O: LinkOut, R: Wait>(
    rt: &R,
    link: &mut O,
    outbox: &mut Taker<Message>,
) -> WriteStop
    ensures queue { IsSameTaker outbox.old outbox.new }
    ensures wrote { taken_by outbox.old ≡ []
        → HasWritten (O.holds link.old) (O.holds link.new) (O.failures link.old) (O.failures link.new) result
        (taken_by outbox.new) }
{
    let mut has_written = false;
    for _ in rt.forever() {
        let mark = outbox.mark();
        let is_closed = outbox.is_closed();
        match outbox.pop(rt) {
            None if is_closed => return WriteStop::Closed,
            None => {
                wait(rt, outbox, mark, has_written);
                has_written = false;
            }
            Some(message) => {
                let stop = write_whole(link, message.as_slice());
                if stop != WriteStop::Closed {
                    return stop;
                }
                has_written = true;
            }
        }
    }
    unreachable!()
}

// Puts the cause of a stop for the one who fills the outbox, and rings the bell. A writer that was closed in order puts
// none.
fn tell<R: Wait>(rt: &R, causes: &mut Putter<WriteStop>, bell: &Bell, stop: WriteStop)
    ensures queue { IsSamePutter causes.old causes.new }
    ensures put { 0 < room_of causes.old → put_by causes.old ≡ [] → put_by causes.new ≡ cause_of stop }
{
    if stop != WriteStop::Closed {
        let _told = causes.push(rt, stop);
        bell.ring();
    }
}

/// Writes the messages of an outbox to a link, each whole, until the outbox was closed and is empty, or the link fails
/// or has no memory. Where it has written all that waited it sleeps a moment, and then, where nothing has come, until
/// something comes. The cause of a stop goes into `causes`, except where the outbox was closed in order, and the bell is
/// rung. At last it hangs up, and then closes `causes`, by which its caller can see that it is done.
pub fn write_all<O: LinkOut, R: Wait>(
    rt: &R,
    link: O,
    outbox: Taker<Message>,
    causes: Putter<WriteStop>,
    bell: Arc<Bell>,
) -> WriterDone<O>
    ensures queue { IsSameTaker outbox result.outbox }
    ensures wrote { taken_by outbox ≡ []
        → HasWritten (O.holds link) (O.holds result.link) (O.failures link) (O.failures result.link) result.stop
        (taken_by result.outbox) }
    ensures told { IsSamePutter causes result.causes }
    ensures cause { 0 < room_of causes → put_by causes ≡ [] → put_by result.causes ≡ cause_of result.stop }
{
    let mut link = link;
    let mut outbox = outbox;
    let mut causes = causes;
    let stop = write_messages(rt, &mut link, &mut outbox);
    tell(rt, &mut causes, &bell, stop);
    link.hang_up();
    causes.close();
    WriterDone {
        link,
        stop,
        outbox,
        causes,
    }
}
