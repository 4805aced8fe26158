//! Clients that come.

ghost use Rattle.std.specs.Prelude.{◌≡◌, ◌≢◌, ◌≤◌, ◌+◌, [], IfOk, List, Ok, OnOk, ℕ, false, is_ok, length, true};
ghost use Rattle.trick_model.specs.declared.session.Session.{Session};
ghost use Rattle.trick_serve_hearing.specs.Clients.{AreOfClients, IsLast, IsSilent, has_lack};
ghost use Rattle.trick_serve_source.specs.Rolls.{IsGathered};
ghost use Rattle.trick_serve_hearing.specs.declared.seat.Seat.{Seat};
ghost use Rattle.trick_wire.specs.Ends.{IsSameTaker, taken_by};

use crate::Roll;
use std::alloc::AllocError;
use std::sync::Wait;
use trick_serve_door::Comes;
use trick_wire::Taker;

/// How many clients are seated for one turn at most.
const MOST: usize = 64;

/// What was taken of the queue of clients.
#[derive(Clone, Copy)]
pub(crate) enum Took {
    /// Nothing waited there.
    Nothing,
    /// A client, or that none has come yet.
    Some,
    /// No client comes any more.
    Over,
}

// Takes one thing that came, and seats the client.
fn take_client<I: Drop, O: Drop, R: Wait>(
    rt: &R,
    coming: &mut Taker<Comes<I, O>>,
    roll: &mut Roll,
) -> Result<Took, AllocError>
    ensures queue { IsSameTaker coming.old coming.new }
    ensures clients { AreOfClients (taken_by coming.old) roll.old.seats.items
        → AreOfClients (taken_by coming.new) roll.new.seats.items }
    ensures still { IsLast (taken_by coming.old) roll.old.seats.items
        → IsLast (taken_by coming.new) roll.new.seats.items }
    ensures last { result ≡ Ok Took.Over → IsLast (taken_by coming.new) roll.new.seats.items }
    ensures silent { IsSilent (taken_by coming.old) → IsSilent (taken_by coming.new) }
    ensures first { AreOfClients (taken_by coming.old) roll.old.seats.items → roll.new.seats.items ≡ []
        → IfOk result (λ took. took ≢ Took.Nothing → IsSilent (taken_by coming.new)) }
    ensures memory { has_lack (taken_by coming.old) ≡ false → OnOk result (has_lack (taken_by coming.new) ≡ false) }
    ensures count { length roll.old.seats.items ≤ length roll.new.seats.items }
    ensures live { length roll.new.live.items + length roll.old.seats.items
        ≡ length roll.old.live.items + length roll.new.seats.items }
    ensures gathers { (there : List Session) (was : List Seat) (known : List ℕ)
        → IsGathered there was known roll.old true → IsGathered there was known roll.new (is_ok result) }
{
    if roll.is_full() {
        return Ok(Took::Over);
    }
    roll.make_room()?;
    match coming.pop(rt) {
        None => Ok(Took::Nothing),
        Some(Comes::Client(arrival)) => {
            roll.join(arrival);
            Ok(Took::Some)
        }
        Some(Comes::Nobody) => Ok(Took::Some),
        Some(Comes::Over) => Ok(Took::Over),
        // it is told only after the end of the run
        Some(Comes::Closed) => Ok(Took::Nothing),
        Some(Comes::OutOfMemory) => Err(AllocError),
    }
}

/// Seats the clients that came, at most 64.
pub(crate) fn take_clients<I: Drop, O: Drop, R: Wait>(
    rt: &R,
    coming: &mut Taker<Comes<I, O>>,
    roll: &mut Roll,
) -> Result<Took, AllocError>
    ensures queue { IsSameTaker coming.old coming.new }
    ensures clients { AreOfClients (taken_by coming.old) roll.old.seats.items
        → AreOfClients (taken_by coming.new) roll.new.seats.items }
    ensures still { IsLast (taken_by coming.old) roll.old.seats.items
        → IsLast (taken_by coming.new) roll.new.seats.items }
    ensures last { result ≡ Ok Took.Over → IsLast (taken_by coming.new) roll.new.seats.items }
    ensures silent { IsSilent (taken_by coming.old) → IsSilent (taken_by coming.new) }
    ensures first { AreOfClients (taken_by coming.old) roll.old.seats.items → roll.new.seats.items ≡ []
        → IfOk result (λ took. took ≢ Took.Nothing → IsSilent (taken_by coming.new)) }
    ensures memory { has_lack (taken_by coming.old) ≡ false → OnOk result (has_lack (taken_by coming.new) ≡ false) }
    ensures count { length roll.old.seats.items ≤ length roll.new.seats.items }
    ensures live { length roll.new.live.items + length roll.old.seats.items
        ≡ length roll.old.live.items + length roll.new.seats.items }
    ensures gathers { (there : List Session) (was : List Seat) (known : List ℕ)
        → IsGathered there was known roll.old true → IsGathered there was known roll.new (is_ok result) }
{
    let mut took = Took::Nothing;
    for _ in 0..MOST {
        match take_client(rt, coming, roll)? {
            Took::Nothing => return Ok(took),
            Took::Some => took = Took::Some,
            Took::Over => return Ok(Took::Over),
        }
    }
    Ok(took)
}
