//! The run of an accepted plan under a journal, from its start or from a checkpoint.

ghost use Rattle.std.specs.Arc.{arc_value};
ghost use Rattle.std.specs.Prelude.{◌≡◌, ◌⊎◌, Some, None, option_map};
ghost use Rattle.trick_top_alone.specs.Acts.{HasActed};
ghost use Rattle.trick_top_alone.specs.Aims as aim;
ghost use Rattle.trick_top_alone.specs.Verdict.{OutOfMemory, replay_verdict, unread_verdict, verdict_of};

use crate::runs::unloaded;
use crate::verdict::Verdict;
use std::alloc::Global;
use std::sync::Arc;
use trick_chkpt_state::resume;
use trick_exec_alone::{Replayed, replay as replay_new, replay_from};
use trick_journal::{JournalFault, laws, read};
use trick_model::Accepted;
use trick_outside::{Shelf, Stop};
use trick_top_refusals::journal_line;

/// The turn at which a plan's own start begins.
const FIRST_TURN: u64 = 0;

/// The verdict on a run under a journal that ended so.
fn replayed(run: Result<Replayed, Stop>) -> Verdict<'static>
    ensures { verdict_of result ≡ replay_verdict run }
{
    match run {
        Ok(Replayed::Ended { ended, joins }) => Verdict::Ended {
            ended,
            sessions: joins,
        },
        Ok(Replayed::Length { kept, given }) => Verdict::JournalLength { kept, given },
        Err(Stop::Shelf) => Verdict::ShelfFault,
        Err(Stop::Memory) => Verdict::OutOfMemory,
    }
}

/// The verdict on a text that is no journal.
fn unread(alloc: Global, fault: JournalFault) -> Verdict<'static>
    ensures { (verdict_of result ≡ unread_verdict fault) ⊎ (verdict_of result ≡ OutOfMemory) }
{
    if fault == JournalFault::OutOfMemory {
        return Verdict::OutOfMemory;
    }
    match journal_line(alloc, fault) {
        Ok(line) => Verdict::TextRefused(line),
        Err(_) => Verdict::OutOfMemory,
    }
}

/// Runs an accepted plan from its start under the journal of a text.
fn replay_from_start<F: Shelf>(
    alloc: Global,
    accepted: &Arc<Accepted, Global>,
    journal: &[u8],
    shelf: &mut F,
) -> Verdict<'static>
    ensures { HasActed F.Shelf shelf.old shelf.new (arc_value accepted.now).plan None (Some journal.now) aim.Run
        (verdict_of result) }
{
    laws::refused_texts_are_no_journals();
    match read(alloc, accepted.plan(), FIRST_TURN, journal) {
        Ok(journal) => replayed(replay_new(alloc, accepted, journal, shelf)),
        Err(fault) => unread(alloc, fault),
    }
}

/// Runs an accepted plan from the state of which one text is the checkpoint under the journal of another.
fn replay_from_checkpoint<F: Shelf>(
    alloc: Global,
    accepted: &Arc<Accepted, Global>,
    from: &[u8],
    journal: &[u8],
    shelf: &mut F,
) -> Verdict<'static>
    ensures { HasActed F.Shelf shelf.old shelf.new (arc_value accepted.now).plan (Some from.now) (Some journal.now)
        aim.Run (verdict_of result) }
{
    laws::refused_texts_are_no_journals();
    let state = match resume(alloc, accepted.plan(), from) {
        Ok(state) => state,
        Err(fault) => return unloaded(alloc, fault),
    };
    match read(alloc, accepted.plan(), state.turn, journal) {
        Ok(journal) => replayed(replay_from(alloc, accepted, journal, state, shelf)),
        Err(fault) => unread(alloc, fault),
    }
}

/// Runs an accepted plan under the journal of a text, from its start or from a checkpoint.
pub(crate) fn replay<F: Shelf>(
    alloc: Global,
    accepted: &Arc<Accepted, Global>,
    from: Option<&[u8]>,
    journal: &[u8],
    shelf: &mut F,
) -> Verdict<'static>
    ensures { HasActed F.Shelf shelf.old shelf.new (arc_value accepted.now).plan
        (option_map (λ text. text.now) from.entry) (Some journal.now) aim.Run (verdict_of result) }
{
    match from {
        None => replay_from_start(alloc, accepted, journal, shelf),
        Some(text) => replay_from_checkpoint(alloc, accepted, text, journal, shelf),
    }
}
