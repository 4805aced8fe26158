//! What the caller knows once a session's reader and writer are back.

ghost use Rattle.std.specs.Prelude.{◌≡◌, ◌++◌, ◌≤◌, [], List, ℕ, Option};
ghost use Rattle.trick_outside.specs.Causes.{Rose};
ghost use Rattle.trick_wire.specs.Ends.{AreEnds, HasBoth, IsSameTaker, given_to, put_by, taken_by};
ghost use Rattle.trick_wire.specs.HasHeard.{HasHeard};
ghost use Rattle.trick_wire.specs.HasRead.{HasRead};
ghost use Rattle.trick_wire.specs.HasWritten.{HasWritten, IsCauseOf, cause_of, text_of};
ghost use Rattle.trick_outside.specs.Links.{Took};

use crate::writer::write_whole;
use crate::{Heard, Message, Putter, ReadStop, ReaderDone, Taker, WriteStop, WriterDone};
use std::sync::Wait;
use trick_outside::{LinkIn, LinkOut};

// Writes what is left in an outbox of which both ends are at hand.
fn write_left<O: LinkOut, R: Wait>(rt: &R, link: &mut O, outbox: &mut Taker<Message>) -> WriteStop
    requires both { HasBoth outbox.old }
    ensures wrote { (start : Option (List ℕ)) (before : ℕ)
        → Took start (O.holds link.old) (text_of (taken_by outbox.old)) → before ≤ O.failures link.old
        → HasWritten start (O.holds link.new) before (O.failures link.new) result (given_to outbox.old) }
    ensures later { O.failures link.old ≤ O.failures link.new }
{
    for _ in rt.forever() {
        match outbox.pop(rt) {
            None => return WriteStop::Closed,
            Some(message) => {
                let stop = write_whole(link, message.as_slice());
                if stop != WriteStop::Closed {
                    outbox.learn();
                    return stop;
                }
            }
        }
    }
    unreachable!()
}

// Where the writer has written all that it took, writes what it left.
fn go_on<O: LinkOut, R: Wait>(
    rt: &R,
    link: &mut O,
    outbox: &mut Taker<Message>,
    stop: WriteStop,
) -> WriteStop
    requires both { HasBoth outbox.old }
    ensures wrote { (start : Option (List ℕ)) (before : ℕ)
        → HasWritten start (O.holds link.old) before (O.failures link.old) stop (taken_by outbox.old)
        → HasWritten start (O.holds link.new) before (O.failures link.new) result (given_to outbox.old) }
    ensures later { O.failures link.old ≤ O.failures link.new }
{
    if stop == WriteStop::Closed {
        return write_left(rt, link, outbox);
    }
    outbox.learn();
    stop
}

/// Takes in the writer of a session: writes what it left in the outbox, and hangs up. What the link took is then the
/// first part of the text of all messages that were put, and all of it where the answer is `Closed`. What was taken of
/// the causes is the cause of the writer's stop, or nothing; what is left there can be taken after this.
pub fn end_writer<O: LinkOut, R: Wait>(
    rt: &R,
    outbox: Putter<Message>,
    causes: &mut Taker<WriteStop>,
    writer: WriterDone<O>,
) -> (O, WriteStop)
    requires outbox { AreEnds outbox writer.outbox }
    requires causes { AreEnds writer.causes causes.old }
    ensures sent { (told : Option (List ℕ)) (before : ℕ)
        → HasWritten told (O.holds writer.link) before (O.failures writer.link) writer.stop (taken_by writer.outbox)
        → HasWritten told (O.holds result.0) before (O.failures result.0) result.1 (put_by outbox) }
    ensures cause { put_by writer.causes ≡ cause_of writer.stop → IsCauseOf (taken_by causes.old) writer.stop }
    ensures later { O.failures writer.link ≤ O.failures result.0 }
    ensures taken { taken_by causes.new ≡ taken_by causes.old }
    ensures both { HasBoth causes.new }
    ensures given { given_to causes.new ≡ put_by writer.causes }
{
    let WriterDone {
        mut link,
        stop,
        outbox: mut mine,
        causes: theirs,
    } = writer;
    causes.join(theirs);
    mine.join(outbox);
    let last = go_on(rt, &mut link, &mut mine, stop);
    link.hang_up();
    (link, last)
}

/// Takes in the reader of a session. What was taken of the inbox is then the first lines of what the link had to give,
/// each once and in order, and after them at most one mark, which has its cause.
pub fn end_reader<I: LinkIn>(inbox: &mut Taker<Heard>, reader: ReaderDone<I>) -> (I, ReadStop)
    requires inbox { AreEnds reader.inbox inbox.old }
    ensures heard { (told : Option (List ℕ)) (before : ℕ)
        → HasRead told (I.holds reader.link) before (I.failures reader.link) reader.stop (put_by reader.inbox)
        → HasHeard told (Rose before (I.failures result.0)) (taken_by inbox.old) }
    ensures link { result.0 ≡ reader.link }
    ensures stop { result.1 ≡ reader.stop }
    ensures taken { taken_by inbox.new ≡ taken_by inbox.old }
{
    let ReaderDone {
        link,
        stop,
        inbox: theirs,
    } = reader;
    inbox.join(theirs);
    (link, stop)
}
