//! Clients that come as the run ends.

ghost use Rattle.std.specs.Prelude.{◌≡◌, ◌++◌, ◌∷◌, [], ◌<◌, ◌≤◌, length, vec_capacity};
ghost use Rattle.trick_serve_clients.specs.Ends.{ends_of};
ghost use Rattle.trick_serve_clients.specs.Late.{HasComeLate};
ghost use Rattle.trick_wire.specs.Ends.{IsSameTaker, taken_by};

use std::alloc::{AllocError, Global};
use std::sync::Wait;
use trick_serve_door::{Arrival, Comes, Ends};
use trick_wire::Taker;

/// How many clients come as the run ends, at most: as many as live at once.
const MOST: usize = 64;

// Room for the ends of the queues of all clients that come as the run ends.
#[derive(Drop)]
pub(crate) struct Room {
    pub(crate) ends: Vec<Ends>,
    pub ghost room: { 64 ≤ vec_capacity ends },
    pub ghost none: { ends.items ≡ [] },
}

impl Room {
    // Room in which nothing is yet.
    pub(crate) fn new(alloc: Global) -> Result<Room, AllocError> {
        let ends = Vec::with_capacity(alloc, MOST)?;
        Ok(Room { ends })
    }
}

// Closes the queues of a client, so that its threads end, and keeps their ends where there is room.
fn keep<I: Drop, O: Drop>(ends: &mut Vec<Ends>, arrival: Arrival<I, O>)
    requires { 64 ≤ vec_capacity ends.old }
    ensures room { 64 ≤ vec_capacity ends.new }
    ensures kept { length ends.old.items < 64 → ends.new.items ≡ ends.old.items ++ ends_of arrival ∷ [] }
    ensures full { 64 ≤ length ends.old.items → ends.new.items ≡ ends.old.items }
{
    let Arrival {
        inbox,
        outbox,
        causes,
        ..
    } = arrival;
    inbox.close();
    outbox.close();
    if ends.len() < MOST {
        ends.push_reserved(Ends {
            inbox,
            outbox,
            causes,
        });
    }
}

/// Takes what still comes, until the acceptor tells that it is closed, and rests where nothing does. The queues of each
/// client that comes are closed, and their ends kept in the order in which they come, of 64 clients at most.
pub(crate) fn take_late<I: Drop, O: Drop, R: Wait>(
    rt: &R,
    room: Room,
    coming: &mut Taker<Comes<I, O>>,
) -> Vec<Ends>
    ensures queue { IsSameTaker coming.old coming.new }
    ensures late { HasComeLate (taken_by coming.old) (taken_by coming.new) result.items }
{
    let Room { mut ends } = room;
    for _ in rt.forever() {
        let mark = coming.mark();
        match coming.pop(rt) {
            None => coming.rest(rt, mark),
            Some(Comes::Client(arrival)) => keep(&mut ends, arrival),
            Some(Comes::Closed) => return ends,
            Some(Comes::Nobody) => {}
            Some(Comes::Over) => {}
            Some(Comes::OutOfMemory) => {}
        }
    }
    unreachable!()
}
