//! The end of a session, once its threads handed back what they have.

ghost use Rattle.std.specs.Prelude.{◌≡◌, ◌≤◌, ◌∷◌, [], false, true};
ghost use Rattle.trick_outside.specs.Causes.{Rose};
ghost use Rattle.trick_serve_seats.specs.Seats.{IsPast};
ghost use Rattle.trick_wire.specs.Ends.{AreEnds, HasBoth, given_to, put_by, taken_by};
ghost use Rattle.trick_wire.specs.HasHeard.{HasHeard};
ghost use Rattle.trick_wire.specs.HasWritten.{HasWritten, IsCauseOf};

use std::sync::Wait;
use trick_outside::{LinkIn, LinkOut};
use trick_serve_seats::{Arrival, Past};
use trick_wire::{Heard, Message, Putter, ReadStop, Taker, WriteStop, end_reader, end_writer};

/// The caller's ends of a session.
#[derive(Drop)]
pub struct Ends {
    pub inbox: Taker<Heard>,
    pub outbox: Putter<Message>,
    pub causes: Taker<WriteStop>,
}

/// A session that is over: the links of its client, and why its reader and its writer stopped.
#[derive(Drop)]
pub struct SessionEnd<I, O> {
    pub input: I,
    pub output: O,
    pub read: ReadStop,
    pub wrote: WriteStop,
    /// There was no memory to write what was put, and the caller had not taken that of the causes.
    pub lacked: bool,
}

// Whether a writer stopped since there was no memory, and no cause of its stop still waits for its caller.
fn is_told<R: Wait>(rt: &R, stop: WriteStop, causes: &mut Taker<WriteStop>) -> bool
    requires both { HasBoth causes.old }
    ensures stop { result ≡ true → stop ≡ WriteStop.OutOfMemory }
    ensures all { result ≡ true → given_to causes.old ≡ taken_by causes.old }
{
    stop == WriteStop::OutOfMemory && causes.pop(rt).is_none()
}

// Whether there was no memory to write what was put, and the caller has not taken that of the causes of the writer.
fn has_lacked<R: Wait>(
    rt: &R,
    wrote: WriteStop,
    stop: WriteStop,
    causes: &mut Taker<WriteStop>,
) -> bool
    requires both { HasBoth causes.old }
    ensures stop { result ≡ false → wrote ≡ WriteStop.OutOfMemory → stop ≡ WriteStop.OutOfMemory }
    ensures all { result ≡ false → wrote ≡ WriteStop.OutOfMemory → given_to causes.old ≡ taken_by causes.old }
{
    if wrote != WriteStop::OutOfMemory {
        return false;
    }
    !is_told(rt, stop, causes)
}

/// Ends a session: writes what its writer left in the outbox, and hangs up. What was taken of the inbox is then the
/// first lines of what the client's link had to give, and what went to it is the first part of all messages that were
/// put, all of it where `wrote` is `Closed`. Where there was no memory to write all of it, and `lacked` is false, that
/// is the one cause that was taken.
pub fn end_session<I: LinkIn, O: LinkOut, R: Wait>(
    rt: &R,
    ends: Ends,
    past: Past<I, O>,
) -> SessionEnd<I, O>
    requires inbox { AreEnds past.reader.inbox ends.inbox }
    requires outbox { AreEnds ends.outbox past.writer.outbox }
    requires causes { AreEnds past.writer.causes ends.causes }
    ensures heard { (arrival : Arrival I O) → IsPast I.LinkIn O.LinkOut arrival past
        → HasHeard (I.holds arrival.input.value) (Rose (I.failures arrival.input.value) (I.failures result.input))
        (taken_by ends.inbox) }
    ensures sent { (arrival : Arrival I O) → IsPast I.LinkIn O.LinkOut arrival past
        → HasWritten (O.holds arrival.output.value) (O.holds result.output) (O.failures arrival.output.value)
        (O.failures result.output) result.wrote (put_by ends.outbox) }
    ensures cause { (arrival : Arrival I O) → IsPast I.LinkIn O.LinkOut arrival past
        → IsCauseOf (taken_by ends.causes) past.writer.stop }
    ensures told { result.lacked ≡ false → result.wrote ≡ WriteStop.OutOfMemory
        → (arrival : Arrival I O) → IsPast I.LinkIn O.LinkOut arrival past
        → taken_by ends.causes ≡ WriteStop.OutOfMemory ∷ [] }
    ensures later { O.failures past.writer.link ≤ O.failures result.output }
{
    let Ends {
        mut inbox,
        outbox,
        mut causes,
    } = ends;
    let Past { reader, writer } = past;
    let stop = writer.stop;
    let (output, wrote) = end_writer(rt, outbox, &mut causes, writer);
    let (input, read) = end_reader(&mut inbox, reader);
    let lacked = has_lacked(rt, wrote, stop, &mut causes);
    SessionEnd {
        input,
        output,
        read,
        wrote,
        lacked,
    }
}
