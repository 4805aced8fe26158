//! Laws of the journal that a run writes. A function that calls one of these may rest on what it says; the call itself
//! does nothing.

ghost use Rattle.trick_exec_own_journal.specs.Last.{LastGoesNoFurther};
ghost use Rattle.trick_exec_own_journal.specs.Rules.{RunsAreRight};
ghost use Rattle.trick_exec_own_journal.specs.Replaying.{ReplaysRunAgain, WrittenTextsReadBack};
ghost use Rattle.trick_exec_own_journal.specs.Written.{TurnsAreCounted, WrittenJournals};
ghost use Rattle.trick_exec_meaning.specs.Hosts.{hosts};

use trick_exec_sources::Turns;
use trick_lang::Cells;
use trick_outside::Shelf;
use trick_post_work::Posts;

/// The lists of a run that is done, or missed the end of a journal, are right: the premise of the laws below.
pub fn runs_are_right<M: Cells, F: Shelf, P: Posts, T: Turns<M>>()
    ensures { RunsAreRight (hosts F.Shelf T.Turns P.Posts) }
{}

/// What a whole run writes as its journal is the text of a journal, which fits the state that the run began with and
/// gives each turn what it noted.
pub fn written_journals_are_journals()
    ensures { WrittenJournals }
{}

/// A state of a run has as many turns more than the first one as were done since, and the state before a turn of a
/// journal has that turn.
pub fn turns_are_counted()
    ensures { TurnsAreCounted }
{}

/// Whatever journal is read from that text, it fits the same state, and its run writes the same files.
pub fn written_texts_read_back()
    ensures { WrittenTextsReadBack }
{
    trick_journal::laws::no_journal_is_a_proper_prefix();
}

/// A replay of that text from the same state comes to the same end, and leaves the same files.
pub fn replays_run_again<F: Shelf>()
    ensures { ReplaysRunAgain F.Shelf }
{
    written_texts_read_back();
}

/// A run from the last state of a run, under a journal with the same end, has no turn, ends in that state, and writes the
/// same last files.
pub fn last_states_go_no_further()
    ensures { LastGoesNoFurther }
{}
