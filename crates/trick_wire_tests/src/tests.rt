//! Four sessions, each of which ends by itself.

ghost use Rattle.trick_wire.specs.Ends.{IsSamePutter, IsSameTaker};

use crate::caller::{Caller, Ends};
use crate::held_out::{HeldOut, Hold};
use crate::session::{ROOM, Served, serve};
use std::alloc::Global;
use std::process::Abort;
use std::rt::Clock;
use std::sync::{Arc, Wait};
use std::thread::{self, Threads};
use std::time::Duration;
use trick_base::Items;
use trick_outside::{MemoryOut, MemorySink, ScriptIn};
use trick_turn::Bell;
use trick_wire::{Heard, Message, Putter, ReadStop, Taker, WriteStop};

/// Milliseconds in which a reader or a writer falls asleep.
const NAP: u64 = 20;

/// Lines that do not fit into an inbox.
const LINES: u64 = 1500;

fn message(rt: &impl Abort, alloc: Global, bytes: &[u8]) -> Message {
    Items::from_bytes(alloc, bytes).expect(rt, "memory")
}

/// Sends a message, for which it rests until there is room.
fn send<R: Wait>(rt: &R, outbox: &mut Putter<Message>, message: Message)
    ensures { IsSamePutter outbox.old outbox.new }
{
    let mut mine = message;
    for _ in rt.forever() {
        let mark = outbox.mark();
        match outbox.push(rt, mine) {
            Ok(()) => return,
            Err(back) => mine = back,
        }
        outbox.rest(rt, mark);
    }
}

/// Listens, and rests until something was heard.
fn listen<R: Wait>(rt: &R, inbox: &mut Taker<Heard>, bell: &Bell) -> Heard
    ensures { IsSameTaker inbox.old inbox.new }
{
    for _ in rt.forever() {
        let mark = bell.mark();
        match inbox.pop(rt) {
            Some(heard) => return heard,
            None => bell.rest(rt, mark),
        }
    }
    unreachable!()
}

/// Does not listen at first, and then sends each line back.
#[derive(Clone, Copy, Drop)]
struct Echo {
    lines: u64,
    bytes: u64,
}

impl Echo {
    // Sends a line back.
    fn send_back<R: Wait + Abort>(
        &mut self,
        rt: &R,
        alloc: Global,
        outbox: &mut Putter<Message>,
        line: &[u8],
    )
        ensures { IsSamePutter outbox.old outbox.new }
    {
        self.lines = self.lines.wrapping_add(1);
        self.bytes = self.bytes.wrapping_add(line.len() as u64);
        send(rt, outbox, message(rt, alloc, line));
    }

    // Sends back what was heard, and tells whether that was a line.
    fn answer<R: Wait + Abort>(
        &mut self,
        rt: &R,
        alloc: Global,
        outbox: &mut Putter<Message>,
        heard: Heard,
    ) -> bool
        ensures { IsSamePutter outbox.old outbox.new }
    {
        match heard {
            Heard::Line(line) => {
                self.send_back(rt, alloc, outbox, line.as_slice());
                true
            }
            _ => false,
        }
    }
}

impl Caller for Echo {
    fn talk<R: Wait + Clock + Abort>(&mut self, rt: &R, alloc: Global, ends: &mut Ends) {
        thread::sleep(rt, Duration::from_millis(NAP));
        for _ in rt.forever() {
            let heard = listen(rt, &mut ends.inbox, &ends.bell);
            if !self.answer(rt, alloc, &mut ends.outbox, heard) {
                return;
            }
        }
    }
}

/// Sends messages to a client that does not read, until one is refused, and then lets it read.
#[derive(Drop)]
struct Flood {
    hold: Arc<Hold>,
    sent: u64,
}

// Whether there was room for one more message.
fn has_sent<R: Wait + Abort>(rt: &R, alloc: Global, outbox: &mut Putter<Message>) -> bool
    ensures { IsSamePutter outbox.old outbox.new }
{
    outbox.push(rt, message(rt, alloc, b"frame\n")).is_ok()
}

impl Caller for Flood {
    fn talk<R: Wait + Clock + Abort>(&mut self, rt: &R, alloc: Global, ends: &mut Ends) {
        for _ in 0..2 * ROOM {
            if !has_sent(rt, alloc, &mut ends.outbox) {
                break;
            }
            if self.sent == 0 {
                self.hold.wait_until_asked(rt);
            }
            self.sent = self.sent.wrapping_add(1);
        }
        self.hold.free();
    }
}

/// So many times a line.
fn lines(rt: &(impl Abort + AllocGlobal), line: &[u8], count: u64) -> Vec<u8> {
    let mut bytes = Vec::new(rt.alloc());
    for _ in 0..count {
        bytes.extend_from_slice(line).expect(rt, "memory");
    }
    bytes
}

/// Serves a client by a caller who sends each line back.
fn echoed<R>(rt: R, input: ScriptIn, sink: MemorySink) -> (Echo, Served<ScriptIn, MemoryOut>)
where
    R: Threads + Wait + Clock + Abort + AllocGlobal + Copy + Send + Drop + 'static,
{
    let mut echo = Echo { lines: 0, bytes: 0 };
    let served = serve(rt, rt.alloc(), input, MemoryOut::new(sink), &mut echo);
    (echo, served)
}

/// Whether a client was sent just this line, so many times.
fn was_sent(rt: &(impl Abort + AllocGlobal), output: &MemoryOut, line: &[u8], count: u64) -> bool {
    output.bytes() == lines(rt, line, count).as_slice()
}

/// Lines, of which the last does not end, that come byte by byte.
fn lines_by_bytes(rt: &(impl Abort + AllocGlobal)) -> ScriptIn {
    let mut bytes = lines(rt, b"x = 1\r\n", LINES);
    bytes.extend_from_slice(b"no line").expect(rt, "memory");
    ScriptIn::new(rt.alloc(), bytes).with_most(1)
}

#[test]
fn lines_and_messages_go_byte_by_byte(rt: HostRuntime) {
    let sink = MemorySink::taking(rt.alloc(), 1);
    let (echo, served) = echoed(rt, lines_by_bytes(&rt), sink);
    assert!(rt; echo.lines == LINES);
    assert!(rt; echo.bytes == 5 * LINES);
    assert!(rt; was_sent(&rt, &served.output, b"x = 1", LINES));
    assert!(rt; served.output.is_hung_up());
    assert!(rt; served.read == ReadStop::End);
    assert!(rt; served.wrote == WriteStop::Closed);
}

/// A caller who has sent nothing yet.
fn flood_of(rt: &impl Abort, hold: &Arc<Hold>) -> Flood {
    Flood {
        hold: Arc::try_clone(hold).expect(rt, "memory"),
        sent: 0,
    }
}

#[test]
fn a_client_that_does_not_read_is_slow(rt: HostRuntime) {
    let input = ScriptIn::new(rt.alloc(), Vec::new(rt.alloc()));
    let hold = Arc::new(rt.alloc(), Hold::new()).expect(&rt, "memory");
    let mut flood = flood_of(&rt, &hold);
    let link = MemoryOut::new(MemorySink::new(rt.alloc()));
    let output = HeldOut { rt, link, hold };
    let served = serve(rt, rt.alloc(), input, output, &mut flood);
    assert!(rt; flood.sent == ROOM as u64 + 1);
    assert!(rt; was_sent(&rt, &served.output.link, b"frame\n", flood.sent));
    assert!(rt; served.wrote == WriteStop::Closed);
}

/// A line of just the greatest length, and a longer one that does not end.
fn long_lines(rt: &(impl Abort + AllocGlobal)) -> ScriptIn {
    let mut bytes = lines(rt, b"x", 4096);
    bytes.push(b'\n').expect(rt, "memory");
    bytes
        .extend_from_slice(lines(rt, b"y", 4097).as_slice())
        .expect(rt, "memory");
    ScriptIn::new(rt.alloc(), bytes)
}

#[test]
fn a_long_line_comes_after_the_lines_before_it(rt: HostRuntime) {
    let sink = MemorySink::new(rt.alloc());
    let (echo, served) = echoed(rt, long_lines(&rt), sink);
    assert!(rt; echo.lines == 1);
    assert!(rt; echo.bytes == 4096);
    assert!(rt; served.read == ReadStop::LongLine);
}

/// The numbers of the calls that fail: the second alone.
fn second_call(rt: &(impl Abort + AllocGlobal)) -> Vec<u64> {
    let mut calls = Vec::new(rt.alloc());
    calls.push(1).expect(rt, "memory");
    calls
}

#[test]
fn links_that_fail_end_both_threads(rt: HostRuntime) {
    let input = ScriptIn::failing(lines(&rt, b"x\n", 3), second_call(&rt));
    let sink = MemorySink::failing(rt.alloc(), second_call(&rt));
    let (echo, served) = echoed(rt, input, sink);
    assert!(rt; echo.lines == 3);
    assert!(rt; served.read == ReadStop::LinkFault);
    assert!(rt; served.wrote == WriteStop::LinkFault);
    assert!(rt; was_sent(&rt, &served.output, b"x", 1));
}
