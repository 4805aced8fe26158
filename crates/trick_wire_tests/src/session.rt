//! One session, from its links to what was heard and sent.

ghost use Rattle.std.specs.Prelude.{◌≡◌, [], List, ℕ};
ghost use Rattle.trick_outside.specs.Causes.{Rose};
ghost use Rattle.trick_outside.specs.Works.{Runs};
ghost use Rattle.trick_wire.specs.Ends.{AreEnds, put_by, taken_by};
ghost use Rattle.trick_wire.specs.HasHeard.{HasHeard};

use crate::caller::{Caller, Ends};
use std::alloc::Global;
use std::process::Abort;
use std::rt::Clock;
use std::sync::{Arc, Wait};
use std::thread::Threads;
use trick_outside::{Begun, LinkIn, LinkOut, Running, ThreadSpawner, Work, start};
use trick_turn::Bell;
use trick_wire::{
    Heard, ReadStop, Reader, Taker, WriteStop, Writer, channel, end_reader, end_writer,
};

/// The messages that an outbox has room for, and the entries that an inbox has room for.
pub const ROOM: usize = 1024;

/// A session that was served, with both threads taken in.
#[derive(Drop)]
pub struct Served<I, O> {
    pub input: I,
    pub output: O,
    pub inbox: Taker<Heard>,
    pub read: ReadStop,
    pub wrote: WriteStop,
}

// Work that runs in a thread.
fn begun<W: Work + 'static, R: Threads + Abort>(rt: &R, alloc: Global, work: W) -> Running<W>
where
    W::Out: 'static,
    ensures { Runs W.promises work result }
{
    match start(rt, alloc, &mut ThreadSpawner::new(), work) {
        Begun::Started(running) => running,
        Begun::Refused(_) => panic!(rt; "a thread starts"),
    }
}

// What serves a client: its reader, its writer, and the ends of its caller.
fn parts_of<I, O, R: Abort + Copy>(
    rt: R,
    alloc: Global,
    input: I,
    output: O,
) -> (Reader<I, R>, Writer<O, R>, Ends)
    ensures link { result.0.link ≡ input }
    ensures none { put_by result.0.inbox ≡ [] }
    ensures inbox { AreEnds result.0.inbox result.2.inbox }
    ensures outbox { AreEnds result.2.outbox result.1.outbox }
    ensures causes { AreEnds result.1.causes result.2.causes }
{
    let bell = Arc::new(alloc, Bell::new()).expect(&rt, "memory");
    let (fills, inbox) = channel(alloc, ROOM).expect(&rt, "memory");
    let (outbox, empties) = channel(alloc, ROOM).expect(&rt, "memory");
    let (tells, causes) = channel(alloc, 2).expect(&rt, "memory");
    let reader = Reader {
        rt,
        alloc,
        link: input,
        inbox: fills,
        bell: Arc::try_clone(&bell).expect(&rt, "memory"),
    };
    let writer = Writer {
        rt,
        link: output,
        outbox: empties,
        causes: tells,
        bell: Arc::try_clone(&bell).expect(&rt, "memory"),
    };
    let ends = Ends {
        inbox,
        outbox,
        causes,
        bell,
    };
    (reader, writer, ends)
}

/// Serves one client: its reader and its writer run in threads, and the caller talks to it meanwhile.
pub fn serve<I, O, C, R>(rt: R, alloc: Global, input: I, output: O, caller: &mut C) -> Served<I, O>
where
    I: LinkIn + Send + Drop + 'static,
    O: LinkOut + Send + Drop + 'static,
    C: Caller,
    R: Threads + Wait + Clock + Abort + Copy + Send + Drop + 'static,
    ensures heard { HasHeard (I.holds input) (Rose (I.failures input) (I.failures result.input))
        (taken_by result.inbox) }
{
    let (reader, writer, mut ends) = parts_of(rt, alloc, input, output);
    let reading = begun(&rt, alloc, reader);
    let writing = begun(&rt, alloc, writer);
    caller.talk(&rt, alloc, &mut ends);
    let Ends {
        mut inbox,
        outbox,
        mut causes,
        ..
    } = ends;
    inbox.close();
    outbox.close();
    let (output, wrote) = end_writer(&rt, outbox, &mut causes, writing.finish(&rt));
    let (input, read) = end_reader(&mut inbox, reading.finish(&rt));
    Served {
        input,
        output,
        inbox,
        read,
        wrote,
    }
}
