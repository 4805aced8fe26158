//! Laws of a run, for every plan, state and journal. A function that calls one of them may rest on
//! what it says; the call itself does nothing.

ghost use Rattle.trick_model.specs.Laws.{FittingLasts, IdleTicsPass, JoinsAreNoted, JournalEnds, KeepsSizes, KeepsValidity, KeyOrderIsOne, KeysDiffer, LimitStops, OneRun, PlansAreSound, RunsContinue, RunsJoin, SessionsDoNotMatter, StartsValid};

/// Idle tics below the limit pass and do nothing else.
pub fn idle_tics_pass()
    ensures { IdleTicsPass }
{}

/// From the limit on no tic is run.
pub fn limit_stops()
    ensures { LimitStops }
{}

/// A turn keeps the lengths of all lists of a state.
pub fn turns_keep_sizes()
    ensures { KeepsSizes }
{}

/// A turn of a plan keeps what a valid state keeps.
pub fn turns_keep_validity()
    ensures { KeepsValidity }
{}

/// A run starts with a valid state, and ends with one.
pub fn runs_start_valid()
    ensures { StartsValid }
{}

/// Every plan is sound, so that its states stay valid.
pub fn plans_are_sound()
    ensures { PlansAreSound }
{
    trick_lang::laws::range_law();
}

/// Sessions change nothing but messages.
pub fn sessions_do_not_matter()
    ensures { SessionsDoNotMatter }
{}

/// A run may be cut in two.
pub fn runs_join()
    ensures { RunsJoin }
{}

/// A run from the state after some turns goes on as the original does.
pub fn runs_continue()
    ensures { RunsContinue }
{}

/// Joins in front of a turn's entries are noted and change nothing else but sessions.
pub fn joins_are_noted()
    ensures { JoinsAreNoted }
{}

/// Whether a run is over is seen in its journal alone.
pub fn journal_ends()
    ensures { JournalEnds }
{}

/// A journal gives a world one run at most.
pub fn one_run()
    ensures { OneRun }
{}

/// Lists that are those of a whole run are what it is given under themselves.
pub fn fitting_lists_last()
    ensures { FittingLasts }
{}

/// No two jobs of a program have one key.
pub fn keys_differ()
    ensures { KeysDiffer }
{}

/// Jobs have one key order.
pub fn key_order_is_one()
    ensures { KeyOrderIsOne }
{}
