//! Sessions that hang up.

ghost use Rattle.std.specs.Prelude.{◌≡◌, ◌||◌, ◌++◌, ◌∷◌, ◌<◌, ◌≤◌, [], List, ℕ, OnErr, OnOk, false, is_ok, length, true};
ghost use Rattle.trick_model.specs.Session.{is_empty};
ghost use Rattle.trick_model.specs.declared.session.Session.{Session};
ghost use Rattle.trick_serve_hearing.specs.Clients.{KeepQueues};
ghost use Rattle.trick_serve_hearing.specs.Gathering.{Gathers, HasLooked};
ghost use Rattle.trick_serve_hearing.specs.Rules.{AreSeated};
ghost use Rattle.trick_serve_hearing.specs.Sides.{side_of};

use std::alloc::AllocError;
use trick_model::{Cause, Entry, Session};
use trick_serve_hearing::{Seat, leave};

// Whether a session is paused or has no variables.
fn is_idle(shown: &Session) -> bool
    ensures { result ≡ (shown.now.paused || is_empty shown.now.variables) }
{
    if shown.paused {
        return true;
    }
    matches!(shown.variables.as_slice(), [])
}

// Lists that a session hangs up, where it is shown to be idle and its client has no line left.
fn look_at(
    session: u32,
    shown: &Session,
    seat: &mut Seat,
    list: &mut Vec<Entry>,
) -> Result<(), AllocError>
    ensures { HasLooked session (shown.now ∷ []) (side_of seat.old) (side_of seat.new) list.old.items list.new.items }
{
    if seat.left || !seat.ended || shown.number != session {
        return Ok(());
    }
    if is_idle(shown) {
        list.reserve(1)?;
        leave(session, Cause::HungUp, seat, list);
    }
    Ok(())
}

/// Whether a session is not to leave as long as nothing comes of it: it has not left, no message to it was left out, and
/// it does not hang up. It is shown at this place of the sessions that are shown, if at all.
pub(crate) fn is_calm(session: u32, seat: &Seat, there: &[Session], at: usize) -> bool
    ensures stays { result ≡ true → seat.now.left ≡ false }
    ensures quick { result ≡ true → seat.now.slow ≡ false }
{
    if seat.left || seat.slow {
        return false;
    }
    if !seat.ended || at >= there.len() {
        return true;
    }
    there[at].number != session || !is_idle(&there[at])
}

/// Lists that each of these sessions hangs up whose client has no line left, and which is shown to be paused or to have
/// no variables. The sessions that are shown stand in the same order, each at the place of its number here; one that
/// is shown elsewhere does not hang up yet.
pub(crate) fn hang_up_all(
    there: &[Session],
    live: &[u32],
    seats: &mut Vec<Seat>,
    list: &mut Vec<Entry>,
) -> Result<(), AllocError>
    requires seated { AreSeated live.now seats.old.items }
    requires empty { list.old.items ≡ [] }
    ensures count { length seats.new.items ≡ length seats.old.items }
    ensures queues { KeepQueues seats.old.items seats.new.items }
    ensures gathers { Gathers there.now seats.old.items live.now seats.new.items live.now list.new.items
        (is_ok result) }
{
    for at in 0..live.len() {
        if at >= there.len() {
            break;
        }
        let session = live[at];
        look_at(session, &there[at], &mut seats[session as usize - 1], list)?;
    }
    Ok(())
}
