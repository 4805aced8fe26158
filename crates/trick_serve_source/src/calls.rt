//! What is done with the roll of sessions.

ghost use Rattle.std.specs.Prelude.{◌≡◌, ◌++◌, ◌<◌, ◌+◌, ◌-◌, ◌≤◌, ◌≢◌, ◌∷◌, []};
ghost use Rattle.std.specs.Prelude.{List, OnOk, cond, false, filter, is_ok, length, not, ℕ, true};
ghost use Rattle.std.specs.Vec.{vec_capacity, vec_len};
ghost use Rattle.trick_model.specs.declared.session.Session.{Session};
ghost use Rattle.trick_serve_hearing.specs.Clients.{KeepQueues, client_queues, seat_queues};
ghost use Rattle.trick_serve_hearing.specs.Gathering.{Gathers};
ghost use Rattle.trick_serve_hearing.specs.Messages.{IsHanded};
ghost use Rattle.trick_serve_source.specs.Rolls.{AreEnded, HasRoom, IsGathered, IsSameRoll, seated_entries};
ghost use Rattle.trick_serve_hearing.specs.Rules.{AreCalm, AreQuick, is_live};
ghost use Rattle.trick_serve_hearing.specs.Sides.{side};
ghost use Rattle.trick_serve_seats.specs.Departures.{left_of};
ghost use Rattle.trick_wire.specs.Ends.{IsSamePutter, put_by};

use crate::Roll;
use crate::hang_up::{hang_up_all, is_calm};
use std::alloc::{AllocError, Global};
use std::mem;
use std::sync::Wait;
use trick_model::{Cause, Entry, Session};
use trick_serve_door::{Arrival, Departure};
use trick_serve_hearing::{Seat, hand, listen_all};
use trick_wire::{Message, Putter};

/// The greatest number of a session.
const LAST: usize = 4294967295;

// Whether a session has not left.
fn is_live(seats: &[Seat], session: u32) -> bool
    ensures { result ≡ is_live seats.now session }
{
    match seats.get((session as usize).saturating_sub(1)) {
        Some(seat) => !seat.left,
        None => true,
    }
}

// Lists the join of a session, and its leave where a thread was refused to it. There is room for both.
fn list_join(session: u32, refused: bool, list: &mut Vec<Entry>)
    requires { vec_len list.old + 2 ≤ vec_capacity list.old }
    ensures { list.new.items ≡ list.old.items ++ seated_entries session refused }
{
    list.push_reserved(Entry::Join { session });
    if refused {
        list.push_reserved(Entry::Leave {
            session,
            cause: Cause::NoThread,
        });
    }
}

// Closes the queues of a session that left, and tells its number.
fn dismiss_one<R: Wait>(rt: &R, session: u32, seat: &Seat, gone: &mut Putter<Departure>)
    ensures queue { IsSamePutter gone.old gone.new }
    ensures left { left_of (put_by gone.new) + cond (not seat.now.left) 1 0 ≤ left_of (put_by gone.old) + 1 }
{
    if seat.left {
        seat.inbox.close();
        seat.outbox.close();
        // it has room for all that live at once
        let _told = gone.push(rt, Departure::Session(session));
    }
}

impl Roll {
    /// No session, and an empty list.
    pub(crate) fn new(alloc: Global) -> Roll
        ensures seats { result.seats.items ≡ [] }
        ensures live { result.live.items ≡ [] }
        ensures list { result.list.items ≡ [] }
    {
        Roll {
            seats: Vec::new(alloc),
            live: Vec::new(alloc),
            list: Vec::new(alloc),
        }
    }

    /// Closes the inbox and the outbox of each session.
    pub(crate) fn close(&self) {
        for seat in &self.seats {
            seat.inbox.close();
            seat.outbox.close();
        }
    }

    /// Closes the queues of each session that left, and tells its number.
    pub(crate) fn dismiss<R: Wait>(&self, rt: &R, gone: &mut Putter<Departure>)
        ensures queue { IsSamePutter gone.old gone.new }
        ensures left { left_of (put_by gone.new) + length (filter (is_live self.now.seats.items) self.now.live.items)
            ≤ left_of (put_by gone.old) + length self.now.live.items }
    {
        for session in &self.live {
            let seat = &self.seats[*session as usize - 1];
            dismiss_one(rt, *session, seat, gone);
        }
    }

    /// Begins a list: it is empty, and of the sessions that were live those that left are forgotten.
    pub(crate) fn begin(&mut self)
        ensures seats { self.new.seats ≡ self.old.seats }
        ensures list { self.new.list.items ≡ [] }
        ensures live { self.new.live.items ≡ filter (is_live self.old.seats.items) self.old.live.items }
    {
        self.list.clear();
        let seats = &self.seats;
        self.live.retain(|session| is_live(seats, *session));
    }

    /// Lists the sessions that hang up, in an empty list.
    pub(crate) fn hang_up(&mut self, there: &[Session]) -> Result<(), AllocError>
        requires { self.old.list.items ≡ [] }
        ensures gathered { IsGathered there.now self.old.seats.items self.old.live.items self.new (is_ok result) }
        ensures queues { KeepQueues self.old.seats.items self.new.seats.items }
        ensures live { self.new.live ≡ self.old.live }
    {
        hang_up_all(there, &self.live, &mut self.seats, &mut self.list)
    }

    /// Lists what came of each session. Those to which a message was left out leave.
    pub(crate) fn listen<R: Wait>(&mut self, rt: &R, alloc: Global) -> Result<(), AllocError>
        ensures gathered { (there : List Session) (was : List Seat) (known : List ℕ)
            → IsGathered there was known self.old true → IsGathered there was known self.new (is_ok result) }
        ensures queues { KeepQueues self.old.seats.items self.new.seats.items }
        ensures live { self.new.live ≡ self.old.live }
        ensures quick { is_ok result ≡ true
            → AreQuick self.new.seats.items (filter (is_live self.new.seats.items) self.new.live.items) }
    {
        listen_all(rt, alloc, &self.live, &mut self.seats, &mut self.list)
    }

    /// Whether the last number was given.
    pub(crate) fn is_full(&self) -> bool
        ensures full { result ≡ true → 4294967295 ≤ length self.now.seats.items }
        ensures free { result ≡ false → length self.now.seats.items < 4294967295 }
    {
        LAST <= self.seats.len()
    }

    /// Makes room for one session more.
    pub(crate) fn make_room(&mut self) -> Result<(), AllocError>
        ensures same { IsSameRoll self.old self.new }
        ensures room { OnOk result (HasRoom self.new) }
    {
        self.seats.reserve(1)?;
        self.live.reserve(1)?;
        self.list.reserve(2)
    }

    /// Seats a client, under the number after that of the last one, and lists its join. Where a thread was refused to
    /// it, it leaves at once.
    pub(crate) fn join<I: Drop, O: Drop>(&mut self, arrival: Arrival<I, O>)
        requires room { HasRoom self.old }
        requires number { length self.old.seats.items < 4294967295 }
        ensures gathered { (there : List Session) (was : List Seat) (known : List ℕ)
            → IsGathered there was known self.old true → IsGathered there was known self.new true }
        ensures queues { seat_queues self.new.seats.items
            ≡ seat_queues self.old.seats.items ++ client_queues arrival ∷ [] }
        ensures count { length self.new.seats.items ≡ length self.old.seats.items + 1 }
        ensures live { length self.new.live.items ≡ length self.old.live.items + 1 }
    {
        let session = self.seats.len() as u32 + 1;
        let seat = Seat::of(arrival);
        list_join(session, seat.left, &mut self.list);
        self.seats.push_reserved(seat);
        self.live.push_reserved(session);
    }

    /// Hands a message to a session.
    pub(crate) fn hand<R: Wait>(&mut self, rt: &R, session: u32, message: Message)
        requires { (0 < session) × (session ≤ length self.old.seats.items) }
        ensures own { IsHanded message (side self.old.seats.items (session - 1))
            (side self.new.seats.items (session - 1)) }
        ensures others { (k : ℕ) → session ≢ k + 1 → side self.new.seats.items k ≡ side self.old.seats.items k }
        ensures count { length self.new.seats.items ≡ length self.old.seats.items }
        ensures queues { KeepQueues self.old.seats.items self.new.seats.items }
        ensures live { self.new.live ≡ self.old.live }
    {
        hand(rt, &mut self.seats[session as usize - 1], message);
    }

    /// Moves the list out, and leaves an empty one. The memory of an empty list is kept for the next turn.
    pub(crate) fn take_list(&mut self, alloc: Global) -> Vec<Entry>
        ensures list { result.items ≡ self.old.list.items }
        ensures seats { self.new.seats ≡ self.old.seats }
        ensures live { self.new.live ≡ self.old.live }
    {
        if self.list.is_empty() {
            return Vec::new(alloc);
        }
        mem::replace(&mut self.list, Vec::new(alloc))
    }

    /// Whether these are the sessions that were live, and none of them is to leave as long as nothing comes of it.
    pub(crate) fn is_calm(&self, reached: &[u32], there: &[Session]) -> bool
        ensures { result ≡ true → AreCalm self.now.seats.items self.now.live.items reached.now }
    {
        if reached.len() != self.live.len() {
            return false;
        }
        for at in 0..self.live.len() {
            let session = self.live[at];
            let seat = &self.seats[session as usize - 1];
            if reached[at] != session || !is_calm(session, seat, there, at) {
                return false;
            }
        }
        true
    }

    /// Whether the end of its bytes was heard of each session that has not left.
    pub(crate) fn are_over(&self) -> bool
        ensures { result ≡ true
            → AreEnded self.now.seats.items (filter (is_live self.now.seats.items) self.now.live.items) }
    {
        for session in &self.live {
            let seat = &self.seats[*session as usize - 1];
            if !seat.left && !seat.ended {
                return false;
            }
        }
        true
    }
}
