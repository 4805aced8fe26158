//! Sessions by their numbers.

ghost use Rattle.std.specs.Prelude.{◌≡◌, IsTrue, true};
ghost use Rattle.trick_exec_entries.specs.Places.{IsPlaceOf};
ghost use Rattle.trick_exec_entries.specs.Sessions.{numbers_of};
ghost use Rattle.trick_model.specs.Turn.{changed};
ghost use Rattle.trick_model.specs.Valid.{rises};
ghost use Rattle.trick_model.specs.declared.session.Session.{Session as SessionValue};

use trick_model::Session;

/// Where the session of a number stands. It takes the logarithm of the number of sessions.
pub(crate) fn place(sessions: &[Session], number: u32) -> Option<usize>
    requires { IsTrue (rises (numbers_of sessions.now)) }
    ensures { IsPlaceOf number sessions.now result }
{
    match sessions.binary_search_by_key(&number, |session| session.number) {
        Ok(place) => Some(place),
        Err(_) => None,
    }
}

/// The session of a number is leaving.
pub(crate) fn leave(sessions: &mut [Session], number: u32)
    requires { IsTrue (rises (numbers_of sessions.old)) }
    ensures { sessions.new ≡ changed (λ (session : SessionValue). record session { leaving = true }) number
        sessions.old }
{
    if let Some(place) = place(sessions, number) {
        sessions[place].leaving = true;
    }
}
