//! Laws of sessions. A function that calls one of them may rest on what it says; the call itself does
//! nothing.

ghost use Rattle.trick_session.specs.Laws.{CommandsKeepSessions, JoinsAreRight, LinesAreRight};

/// A session whose variables are cells of its plan, or none, and whose cycle has a tic at least stays
/// one, whatever lines come.
pub fn sessions_stay_right()
    ensures joins { JoinsAreRight }
    ensures lines { LinesAreRight }
    ensures commands { CommandsKeepSessions }
{}
