//! What follows from what `trick_exec::run` says. A function that calls one of these may rest on what it says; the
//! call itself does nothing.

ghost use Rattle.trick_exec_laws.specs.Counted.{LeftAreLate, LeftAreNotReady};
ghost use Rattle.trick_exec_laws.specs.Noting.{NotedDoSame};
ghost use Rattle.trick_exec_laws.specs.Once.{FilesAreMadeOnce};
ghost use Rattle.trick_exec_laws.specs.Rounds.{GivesNothing, RunsWithoutRoundsAreAlone, RunsWithoutRoundsAreOwn};
ghost use Rattle.trick_exec_laws.specs.Stopping.{StopsLeave};
ghost use Rattle.trick_exec_laws.specs.Waiting.{RoundsAreBounded};
ghost use Rattle.trick_exec_meaning.specs.Hosts.{hosts};

use trick_exec_sources::{NoTurns, Turns};
use trick_lang::Cells;
use trick_outside::Shelf;
use trick_post_work::Posts;

/// A run that stopped leaves whole lines in its journal; these are what was noted of all lists that it was given, or of
/// all but the last and a part of that. Of each other file it leaves a prefix of what the run under these lines makes
/// of it, and it has handed over the first messages of that run.
pub fn stopped_runs_leave_fronts<M: Cells, F: Shelf, P: Posts, T: Turns<M>>()
    ensures { StopsLeave M (hosts F.Shelf T.Turns P.Posts) }
{
    trick_model::laws::one_run();
    trick_model::laws::fitting_lists_last();
}

/// Turns that are given what they note come to the same world, and write and say the same: publications that do not
/// count change nothing.
pub fn noted_turns_do_the_same()
    ensures { NotedDoSame }
{}

/// A run makes each of its files once at most, its checkpoints where the count of turns has not come to its end.
pub fn files_are_made_once()
    ensures { FilesAreMadeOnce }
{}

/// No round stays unpublished at more than 1,000 run frames of a run.
pub fn rounds_are_bounded()
    ensures { RoundsAreBounded }
{}

/// As many rounds are left unpublished, counted at each run frame, as polls found not ready.
pub fn left_rounds_are_not_ready()
    ensures { LeftAreNotReady }
{}

/// `late` has risen for each of them, where a run is done, or missed the end of a journal, and its source does not
/// decide what is published.
pub fn left_rounds_are_late<M: Cells, F: Shelf, P: Posts, T: Turns<M>>()
    ensures { LeftAreLate (hosts F.Shelf T.Turns P.Posts) }
{}

/// Where the plan has no asynchronous thread, and the source gave no entry, decides nothing and tells no journal, a run
/// is the one without clients, over whatever posts: none of them is ever asked whether a round is done. What a
/// must-finish thread publishes, and when, is fixed by the plan.
pub fn runs_without_rounds_are_own<M: Cells, F: Shelf, P: Posts, T: Turns<M>>()
    ensures { RunsWithoutRoundsAreOwn (hosts F.Shelf T.Turns P.Posts) M.numbers }
{}

/// Where the source is such at whatever moment, and never owes an entry, a run that stopped did a part of the run
/// without clients.
pub fn runs_without_rounds_are_alone<M: Cells, F: Shelf, P: Posts, T: Turns<M>>()
    ensures { RunsWithoutRoundsAreAlone (hosts F.Shelf T.Turns P.Posts) M.numbers }
{
    trick_model::laws::runs_join();
}

/// `NoTurns` is such a source.
pub fn no_turns_give_nothing<M: Cells>()
    ensures { GivesNothing ⟦<NoTurns as Turns<M>>⟧ }
{}
