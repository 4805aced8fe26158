//! The law of publications, for every accepted plan, state and journal. A function that calls it may rest
//! on what it says; the call itself does nothing.

ghost use Rattle.trick_model_publications.specs.Publications.{JournalsEndAlike, PublicationsKeepFits, PublicationsStayInReach};

/// Runs of one state under lists of entries that differ in publications alone have as many turns, write the
/// same logs, and end with the same state outside what asynchronous work reaches. Where one is a whole run,
/// so is the other with as many lists; so a journal with other publications fits as well.
pub fn publications_stay_in_reach()
    ensures ends { PublicationsStayInReach }
    ensures fits { PublicationsKeepFits }
    ensures journals { JournalsEndAlike }
{
    trick_lang::laws::frame_law();
    trick_lang::laws::write_law();
}
