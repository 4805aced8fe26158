//! The sessions that are there at the first turn of a replay: they join then.

ghost use Rattle.std.specs.Prelude.{◌≡◌, ◌++◌, [], IsTrue, IfOk, OnOk};
ghost use Rattle.trick_exec_sources.specs.Due.{joins_at, live_with, MayCome, resumed, since};
ghost use Rattle.trick_model.specs.Journal.{are_joined, are_rising, live_before};

use crate::due::DueEntries;
use std::alloc::{AllocError, Global};
use std::collections::BTreeSet;
use trick_model::Entry;

// Goes on with an entry.
fn pass(live: &mut BTreeSet<u32>, entry: Entry) -> Result<(), AllocError>
    requires { MayCome live.old.keys entry }
    ensures { OnOk result (live.new.keys ≡ live_with entry live.old.keys) }
{
    match entry {
        Entry::Join { session } => {
            live.insert(session)?;
        }
        Entry::Leave { session, .. } => {
            live.remove(&session);
        }
        Entry::Said { .. } | Entry::Publish { .. } => {}
    }
    Ok(())
}

// Skips the entries of turns before the start, and gives the sessions that are there then.
fn skip(alloc: Global, due: &mut DueEntries, start: u64) -> Result<BTreeSet<u32>, AllocError>
    requires rising { IsTrue (are_rising due.old) }
    requires joined { IsTrue (are_joined 0 [] due.old) }
    ensures live { IfOk result (λ live. live.keys ≡ live_before start due.old []) }
    ensures left { OnOk result (due.new ≡ since start due.old) }
{
    let mut live = BTreeSet::new(alloc);
    while let Some((_, entry)) = due.pop_before(start) {
        pass(&mut live, entry)?;
    }
    Ok(live)
}

// Puts the joins of sessions in front, in rising number.
fn join_all(due: &mut DueEntries, turn: u64, live: BTreeSet<u32>) -> Result<(), AllocError>
    ensures { OnOk result (due.new ≡ joins_at turn live.keys ++ due.old) }
{
    let mut live = live;
    while let Some(session) = live.pop_last() {
        due.join(turn, session)?;
    }
    Ok(())
}

/// What is left for a run that starts at a turn, in Freeze or not. The sessions that are there then join first,
/// but where the journal itself has no turn left, or in Freeze no line: there the run is over at once.
pub(crate) fn resume(
    alloc: Global,
    entries: Vec<(u64, Entry)>,
    start: u64,
    end: u64,
    frozen: bool,
) -> Result<DueEntries, AllocError>
    requires rising { IsTrue (are_rising entries.items) }
    requires joined { IsTrue (are_joined 0 [] entries.items) }
    ensures { IfOk result (λ due. due ≡ resumed start end frozen entries.items) }
{
    let mut due = DueEntries::new(entries);
    let live = skip(alloc, &mut due, start)?;
    if end <= start || frozen && !due.has_line() {
        return Ok(due);
    }
    join_all(&mut due, start, live)?;
    Ok(due)
}
