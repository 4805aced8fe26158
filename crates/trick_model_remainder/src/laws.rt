//! The law of continuation, for every plan, state and journal. A function that calls it may rest on what
//! it says; the call itself does nothing.

ghost use Rattle.trick_model_remainder.specs.Lasting.{EveryJournalLasts, LastingFits, StatesHaveOwnJournals};
ghost use Rattle.trick_model_remainder.specs.Remainder.{RemaindersAreWritten};

/// A run that goes on from the state before a turn of another run, under the same journal, is a whole run.
/// It ends as the other, and writes the remainder of its files.
pub fn remainders_are_written()
    ensures { RemaindersAreWritten }
{
    trick_model::laws::runs_continue();
    trick_model::laws::joins_are_noted();
    trick_model::laws::sessions_do_not_matter();
}

/// The lists that the turns of a run under a journal were given are those of a whole run, which comes to the same end.
pub fn lists_of_runs_fit()
    ensures { LastingFits }
{}

/// A run from a valid state is over some time, whatever journal it is under, and whether its plan is accepted or not:
/// each turn uses a list of the journal up, or raises the tic.
pub fn every_journal_lasts()
    ensures { EveryJournalLasts }
{
    trick_model::laws::turns_keep_validity();
    trick_model::laws::plans_are_sound();
}

/// So is a run without clients: each valid state has the journal of one.
pub fn states_have_own_journals()
    ensures { StatesHaveOwnJournals }
{
    trick_model::laws::turns_keep_validity();
    trick_model::laws::plans_are_sound();
}
