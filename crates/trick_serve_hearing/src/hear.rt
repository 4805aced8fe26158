//! What is heard of the sessions, as entries.

ghost use Rattle.std.specs.List.{slice_index_or};
ghost use Rattle.std.specs.Prelude.{◌≡◌, ◌++◌, ◌∷◌, ◌<◌, ◌+◌, ◌≤◌, [], IfOk, IsTrue, List, ℕ};
ghost use Rattle.std.specs.Prelude.{false, filter, is_ok, length, true};
ghost use Rattle.std.specs.Vec.{vec_capacity, vec_len};
ghost use Rattle.trick_model.specs.Journal.{is_line};
ghost use Rattle.trick_model.specs.declared.entry.Entry.TheVariants.{Leave};
ghost use Rattle.trick_model.specs.declared.session.Session.{Session};
ghost use Rattle.trick_serve_hearing.specs.Clients.{KeepQueues};
ghost use Rattle.trick_serve_hearing.specs.Gathering.{Gathers, HasListed, IsListed};
ghost use Rattle.trick_serve_hearing.specs.Life.{is_exit};
ghost use Rattle.trick_serve_hearing.specs.Rules.{AreQuick, AreSeated, is_live};
ghost use Rattle.trick_serve_hearing.specs.Sides.{side_of};
ghost use Rattle.trick_serve_hearing.specs.declared.seat.Seat.{Seat};

use crate::Seat;
use std::alloc::{AllocError, Global};
use std::sync::Wait;
use trick_base::Line;
use trick_command::command;
use trick_model::{Cause, Command, Entry};
use trick_wire::{Heard, WriteStop};

/// How many things are taken of an inbox for one turn at most.
const MOST: usize = 1024;

/// Lists the leave of a session, for which there is room.
pub fn leave(session: u32, cause: Cause, seat: &mut Seat, list: &mut Vec<Entry>)
    requires room { vec_len list.old < vec_capacity list.old }
    ensures list { list.new.items ≡ list.old.items ++ Leave session cause ∷ [] }
    ensures side { side_of seat.new ≡ record (side_of seat.old) { left = true } }
{
    list.push_reserved(Entry::Leave { session, cause });
    seat.left = true;
}

// Whether a line asks to leave.
fn is_exit(alloc: Global, line: &Line) -> Result<bool, AllocError>
    requires { IsTrue (is_line line.now) }
    ensures { IfOk result (λ exits. exits ≡ is_exit line.now) }
{
    let command = command(alloc, line)?;
    Ok(matches!(command, Command::Exit))
}

// Lists a line that was taken, and the leave where it asks for it. Where there is no memory to look at it the session
// leaves instead. There is room for two entries.
fn list_line(alloc: Global, session: u32, line: Line, seat: &mut Seat, list: &mut Vec<Entry>)
    requires room { vec_len list.old + 2 ≤ vec_capacity list.old }
    requires line { IsTrue (is_line line) }
    requires stays { seat.old.left ≡ false }
    ensures { IsListed session line (side_of seat.old) (side_of seat.new) list.old.items list.new.items }
{
    match is_exit(alloc, &line) {
        Err(AllocError) => leave(session, Cause::OutOfMemory, seat, list),
        Ok(exits) => {
            list.push_reserved(Entry::Said { session, line });
            if exits {
                leave(session, Cause::Exit, seat, list);
            }
        }
    }
}

// Takes one thing out of the inbox of a session that has not left and is not slow, and lists it. False where nothing
// waits there.
fn hear_one<R: Wait>(
    rt: &R,
    alloc: Global,
    session: u32,
    seat: &mut Seat,
    list: &mut Vec<Entry>,
) -> Result<bool, AllocError>
    requires stays { seat.old.left ≡ false }
    requires quick { seat.old.slow ≡ false }
    ensures { HasListed session (side_of seat.old) (side_of seat.new) list.old.items list.new.items (is_ok result) }
{
    list.reserve(2)?;
    let Some(heard) = seat.inbox.pop(rt) else {
        return Ok(false);
    };
    match heard {
        Heard::Line(line) => list_line(alloc, session, line.into_line(), seat, list),
        Heard::End => seat.ended = true,
        Heard::LongLine => leave(session, Cause::LongLine, seat, list),
        Heard::LinkFault => leave(session, Cause::LinkFault, seat, list),
        Heard::OutOfMemory => leave(session, Cause::OutOfMemory, seat, list),
    }
    Ok(true)
}

// Lists the leave of a session to which a message was left out, or whose writer stopped, where it has not left.
fn look_at_writer<R: Wait>(
    rt: &R,
    session: u32,
    seat: &mut Seat,
    list: &mut Vec<Entry>,
) -> Result<(), AllocError>
    ensures listed { HasListed session (side_of seat.old) (side_of seat.new)
        list.old.items list.new.items (is_ok result) }
    ensures quick { is_ok result ≡ true → seat.new.left ≡ false → seat.new.slow ≡ false }
{
    if seat.left {
        return Ok(());
    }
    list.reserve(1)?;
    if seat.slow {
        leave(session, Cause::Slow, seat, list);
        return Ok(());
    }
    let Some(stop) = seat.causes.pop(rt) else {
        return Ok(());
    };
    match stop {
        WriteStop::LinkFault => leave(session, Cause::LinkFault, seat, list),
        WriteStop::OutOfMemory => leave(session, Cause::OutOfMemory, seat, list),
        WriteStop::Closed => {}
    }
    Ok(())
}

/// Lists what came of a session: its leave where it is slow or its writer stopped, and else its lines, at most 1,024,
/// up to its leave.
fn listen<R: Wait>(
    rt: &R,
    alloc: Global,
    session: u32,
    seat: &mut Seat,
    list: &mut Vec<Entry>,
) -> Result<(), AllocError>
    ensures listed { HasListed session (side_of seat.old) (side_of seat.new)
        list.old.items list.new.items (is_ok result) }
    ensures quick { is_ok result ≡ true → seat.new.left ≡ false → seat.new.slow ≡ false }
{
    look_at_writer(rt, session, seat, list)?;
    for _ in 0..MOST {
        if seat.left || seat.ended {
            return Ok(());
        }
        let more = hear_one(rt, alloc, session, seat, list)?;
        if !more {
            return Ok(());
        }
    }
    Ok(())
}

/// Lists what came of each of these sessions. Those to which a message was left out leave.
pub fn listen_all<R: Wait>(
    rt: &R,
    alloc: Global,
    live: &[u32],
    seats: &mut Vec<Seat>,
    list: &mut Vec<Entry>,
) -> Result<(), AllocError>
    requires { AreSeated live.now seats.old.items }
    ensures count { length seats.new.items ≡ length seats.old.items }
    ensures queues { KeepQueues seats.old.items seats.new.items }
    ensures gathers { (there : List Session) (was : List Seat) (known : List ℕ)
        → Gathers there was known seats.old.items live.now list.old.items true
        → Gathers there was known seats.new.items live.now list.new.items (is_ok result) }
    ensures quick { is_ok result ≡ true
        → AreQuick seats.new.items (filter (is_live seats.new.items) live.now) }
{
    for session in live {
        let at = *session as usize - 1;
        listen(rt, alloc, *session, &mut seats[at], list)?;
    }
    Ok(())
}
