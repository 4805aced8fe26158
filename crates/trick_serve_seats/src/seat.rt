//! How a client is seated: its writer and then its reader are started, or neither of them.

ghost use Rattle.std.specs.Prelude.{◌≡◌, ◌<◌, [], false, true};
ghost use Rattle.trick_outside.specs.Causes.{HasCause};
ghost use Rattle.trick_outside.specs.Works.{Runs};
ghost use Rattle.trick_serve_seats.specs.Seats.{AreFresh, IsPast, IsSeated, IsThread, Reads, Writes};
ghost use Rattle.trick_wire.specs.Ends.{IsSamePutter, put_by, taken_by};
ghost use Rattle.trick_wire.specs.HasRead.{HasRead};
ghost use Rattle.trick_wire.specs.HasWritten.{HasWritten, cause_of};

use crate::queues::Queues;
use crate::{Arrival, Past};
use std::alloc::Global;
use std::snapshot::Snapshot;
use std::sync::Wait;
use std::thread::Threads;
use trick_outside::{Begun, LinkIn, LinkOut, Running, Spawner, start};
use trick_wire::{
    Heard, Message, Putter, ReadStop, Reader, ReaderDone, Taker, WriteStop, Writer, WriterDone,
};

/// The threads of a client. Those that were refused are done.
#[derive(Drop)]
pub struct Seated<
    I: LinkIn + Send + Drop + 'static,
    O: LinkOut + Send + Drop + 'static,
    R: Wait + Send + Drop + 'static,
> {
    pub writing: Running<Writer<O, R>>,
    pub reading: Running<Reader<I, R>>,
}

// What a reader that was not started hands back: it has read nothing.
fn read_nothing<I: LinkIn>(link: I, inbox: Putter<Heard>) -> ReaderDone<I>
    ensures inbox { result.inbox ≡ inbox }
    ensures read { put_by inbox ≡ [] → HasRead (I.holds link) (I.holds result.link) (I.failures link)
        (I.failures result.link) result.stop (put_by result.inbox) }
{
    ReaderDone {
        link,
        stop: ReadStop::Closed,
        inbox,
    }
}

// What a writer that was not started hands back: it has written nothing, and has hung up.
fn write_nothing<O: LinkOut>(
    link: O,
    outbox: Taker<Message>,
    causes: Putter<WriteStop>,
) -> WriterDone<O>
    ensures outbox { result.outbox ≡ outbox }
    ensures causes { result.causes ≡ causes }
    ensures wrote { taken_by outbox ≡ [] → HasWritten (O.holds link) (O.holds result.link) (O.failures link)
        (O.failures result.link) result.stop (taken_by result.outbox) }
    ensures cause { put_by causes ≡ [] → put_by result.causes ≡ cause_of result.stop }
{
    let mut link = link;
    link.hang_up();
    causes.close();
    WriterDone {
        link,
        stop: WriteStop::Closed,
        outbox,
        causes,
    }
}

// A reader that was not started.
fn unread<I: LinkIn + Send + Drop, R: Wait + Send + Drop>(reader: Reader<I, R>) -> ReaderDone<I>
    ensures { Reads I.LinkIn reader result }
{
    let Reader { link, inbox, .. } = reader;
    read_nothing(link, inbox)
}

// A writer that was not started.
fn unwritten<O: LinkOut + Send + Drop, R: Wait + Send + Drop>(writer: Writer<O, R>) -> WriterDone<O>
    ensures { Writes O.LinkOut writer result }
{
    let Writer {
        link,
        outbox,
        causes,
        ..
    } = writer;
    write_nothing(link, outbox, causes)
}

// Starts a writer. False where its start was refused, or it was not done by a thread.
fn begin_writer<
    O: LinkOut + Send + Drop + 'static,
    S: Spawner,
    R: Threads + Wait + Copy + Send + Drop + 'static,
>(rt: &R, alloc: Global, spawner: &mut S, writer: Writer<O, R>) -> (Running<Writer<O, R>>, bool)
    ensures runs { Runs (Writes O.LinkOut) writer result.0 }
    ensures started { result.1 ≡ true → IsThread result.0 }
    ensures cause { HasCause (S.failures spawner.old) (S.failures spawner.new) (result.1 ≡ false) }
{
    match start(rt, alloc, spawner, writer) {
        Begun::Started(Running::There(child)) => (Running::There(child), true),
        Begun::Started(Running::Here(done)) => {
            spawner.refuse();
            (Running::Here(done), false)
        }
        Begun::Refused(writer) => (Running::Here(unwritten(writer)), false),
    }
}

// Starts a reader. False where its start was refused, or it was not done by a thread.
fn begin_reader<
    I: LinkIn + Send + Drop + 'static,
    S: Spawner,
    R: Threads + Wait + Copy + Send + Drop + 'static,
>(rt: &R, alloc: Global, spawner: &mut S, reader: Reader<I, R>) -> (Running<Reader<I, R>>, bool)
    ensures runs { Runs (Reads I.LinkIn) reader result.0 }
    ensures started { result.1 ≡ true → IsThread result.0 }
    ensures cause { HasCause (S.failures spawner.old) (S.failures spawner.new) (result.1 ≡ false) }
{
    match start(rt, alloc, spawner, reader) {
        Begun::Started(Running::There(child)) => (Running::There(child), true),
        Begun::Started(Running::Here(done)) => {
            spawner.refuse();
            (Running::Here(done), false)
        }
        Begun::Refused(reader) => (Running::Here(unread(reader)), false),
    }
}

/// Seats a client: starts its writer first, so that a reader that is refused can still be hung up on, and then its
/// reader.
pub(crate) fn seat<
    I: LinkIn + Send + Drop + 'static,
    O: LinkOut + Send + Drop + 'static,
    S: Spawner,
    R: Threads + Wait + Copy + Send + Drop + 'static,
>(
    rt: &R,
    alloc: Global,
    spawner: &mut S,
    queues: Queues,
    links: (I, O),
) -> (Seated<I, O, R>, Arrival<I, O>)
    requires fresh { AreFresh queues }
    ensures seated { IsSeated I.LinkIn O.LinkOut result.1 result.0 }
    ensures input { result.1.input.value ≡ links.0 }
    ensures output { result.1.output.value ≡ links.1 }
    ensures cause { HasCause (S.failures spawner.old) (S.failures spawner.new) (result.1.refused ≡ true) }
{
    let Queues {
        fills,
        inbox,
        outbox,
        empties,
        tells,
        causes,
        reader_bell,
        writer_bell,
    } = queues;
    let (link_in, link_out) = links;
    let input = Snapshot::of(&link_in);
    let output = Snapshot::of(&link_out);
    let writer = Writer {
        rt: *rt,
        link: link_out,
        outbox: empties,
        causes: tells,
        bell: writer_bell,
    };
    let reader = Reader {
        rt: *rt,
        alloc,
        link: link_in,
        inbox: fills,
        bell: reader_bell,
    };
    let (writing, writes) = begin_writer(rt, alloc, spawner, writer);
    let (reading, reads) = if writes {
        begin_reader(rt, alloc, spawner, reader)
    } else {
        (Running::Here(unread(reader)), false)
    };
    if !reads {
        outbox.close();
    }
    let arrival = Arrival {
        inbox,
        outbox,
        causes,
        input,
        output,
        refused: !reads,
    };
    (Seated { writing, reading }, arrival)
}

/// Seats a client to whom no thread is started: nothing is read of it and nothing written to it, it is hung up on, and
/// the spawner counts it as refused.
pub(crate) fn turn_away<I: LinkIn, O: LinkOut, S: Spawner>(
    spawner: &mut S,
    queues: Queues,
    links: (I, O),
) -> (Past<I, O>, Arrival<I, O>)
    ensures past { AreFresh queues → IsPast I.LinkIn O.LinkOut result.1 result.0 }
    ensures input { result.1.input.value ≡ links.0 }
    ensures output { result.1.output.value ≡ links.1 }
    ensures refused { result.1.refused ≡ true }
    ensures cause { HasCause (S.failures spawner.old) (S.failures spawner.new) (result.1.refused ≡ true) }
{
    let Queues {
        fills,
        inbox,
        outbox,
        empties,
        tells,
        causes,
        ..
    } = queues;
    let (link_in, link_out) = links;
    let input = Snapshot::of(&link_in);
    let output = Snapshot::of(&link_out);
    let writer = write_nothing(link_out, empties, tells);
    let reader = read_nothing(link_in, fills);
    outbox.close();
    spawner.refuse();
    let arrival = Arrival {
        inbox,
        outbox,
        causes,
        input,
        output,
        refused: true,
    };
    (Past { reader, writer }, arrival)
}

impl<
    I: LinkIn + Send + Drop + 'static,
    O: LinkOut + Send + Drop + 'static,
    R: Threads + Wait + Copy + Send + Drop + 'static,
> Seated<I, O, R> {
    /// Waits for the writer, whose last act is to hang up, and then for the reader, whose read ends by that.
    pub fn take_in(self, rt: &R) -> Past<I, O>
        ensures { (arrival : Arrival I O) → IsSeated I.LinkIn O.LinkOut arrival self
            → IsPast I.LinkIn O.LinkOut arrival result }
    {
        let Seated { writing, reading } = self;
        let writer = writing.finish(rt);
        let reader = reading.finish(rt);
        Past { reader, writer }
    }
}
