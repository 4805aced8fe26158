//! The rows so far, and what the next one has to keep.

ghost use Rattle.std.specs.BTreeSet.{contains};
ghost use Rattle.std.specs.Ordering.{nat_cmp};
ghost use Rattle.std.specs.Prelude.{◌≡◌, ◌∷◌, ◌++◌, ◌&&◌, ◌<◌, ◌^◌, [], length, nat_le, IfErr, OnOk, true};
ghost use Rattle.trick_journal.specs.Fronts.{joins_with, rises_with};
ghost use Rattle.trick_journal.specs.Rows.{finish, is_row, note};
ghost use Rattle.trick_journal.specs.Rules.{Breaks, ends_above as ends_above_of, follows as follows_of, joins_after as joins_after_of, Keeps, Meets};
ghost use Rattle.trick_journal.specs.Told.{entry_in};
ghost use Rattle.trick_model.specs.JournalText.{may_publish};
ghost use Rattle.trick_model.specs.Plan.{is_async as is_async_of, process_in};
ghost use Rattle.trick_model.specs.PlanOf.{plan_of};

use crate::journal_fault::JournalFault;
use crate::row::ToldEntry;
use std::alloc::{AllocError, AllocFailed, Global};
use std::collections::BTreeSet;
use trick_base::Items;
use trick_model::{Entry, Plan, Thread, process_of};

/// The last entry: there is none, it is no publication, or it is one of this thread.
#[derive(Clone, Copy, Debug)]
pub(crate) enum Last {
    Nothing,
    Open(u64),
    Published(u64, u8),
}

/// The entries so far of a journal that begins at a turn, with the last one, the greatest session
/// that joined, and the sessions that are there.
#[derive(Drop)]
pub(crate) struct Rows {
    pub from: u64,
    pub entries: Items<(u64, Entry)>,
    pub last: Last,
    pub highest: u32,
    pub live: BTreeSet<u32>,
}

// Whether turns rise with an entry after the last one, from this turn on.
fn follows(from: u64, last: Last, turn: u64, entry: ToldEntry) -> bool
    ensures { result ≡ (nat_le from turn && follows_of last (turn, entry_in entry.entry)) }
{
    from <= turn
        && match last {
            Last::Nothing => true,
            Last::Open(before) => before <= turn,
            Last::Published(before, thread) => match entry {
                ToldEntry::Publish { thread: next } => {
                    before < turn || (before == turn && thread < next)
                }
                _ => before < turn,
            },
        }
}

// Whether the end may stand at this turn after the last entry, from this turn on.
fn ends_above(from: u64, last: Last, turn: u64) -> bool
    ensures { result ≡ (nat_le from turn && ends_above_of last turn) }
{
    from <= turn
        && match last {
            Last::Nothing => true,
            Last::Open(before) | Last::Published(before, _) => before < turn,
        }
}

// Whether an entry may follow, where this is the greatest session that joined and these are there.
fn joins_after(highest: u32, live: &BTreeSet<u32>, entry: ToldEntry) -> bool
    ensures { result ≡ joins_after_of highest (contains nat_cmp live.now) (entry_in entry.entry) }
{
    match entry {
        ToldEntry::Join { session } => highest < session,
        ToldEntry::Said { session, .. } | ToldEntry::Leave { session, .. } => live.contains(
            &session,
        ),
        ToldEntry::Publish { .. } => true,
    }
}

impl Rows {
    /// No entries of a journal that begins at this turn.
    pub fn new(alloc: Global, from: u64) -> Rows
        ensures keeps { Keeps result }
        ensures from { result.from ≡ from }
        ensures entries { result.entries ≡ [] }
    {
        Rows {
            from,
            entries: Items::new(alloc),
            last: Last::Nothing,
            highest: 0,
            live: BTreeSet::new(alloc),
        }
    }

    /// Whether turns rise with this entry.
    pub fn rises(&self, turn: u64, entry: ToldEntry) -> bool
        requires { Keeps self.now }
        ensures { result ≡ rises_with self.now.from self.now.entries (note (turn, entry_in entry.entry)) }
    {
        follows(self.from, self.last, turn, entry)
    }

    /// Whether the end may stand at this turn.
    pub fn ends(&self, turn: u64) -> bool
        requires { Keeps self.now }
        ensures { result ≡ rises_with self.now.from self.now.entries (finish turn) }
    {
        ends_above(self.from, self.last, turn)
    }

    /// Whether sessions join, speak and leave as they may with this entry.
    pub fn joins(&self, turn: u64, entry: ToldEntry) -> bool
        requires { Keeps self.now }
        ensures { result ≡ joins_with self.now.entries (note (turn, entry_in entry.entry)) }
    {
        joins_after(self.highest, &self.live, entry)
    }

    // Goes on with an entry; it is not yet among the entries.
    fn meet(&mut self, turn: u64, entry: ToldEntry) -> Result<(), AllocFailed<u32>>
        ensures { OnOk result (Meets self.old self.new (turn, entry_in entry.entry)) }
    {
        match entry {
            ToldEntry::Join { session } => {
                self.live.insert(session)?;
                self.highest = session;
                self.last = Last::Open(turn);
            }
            ToldEntry::Said { .. } => self.last = Last::Open(turn),
            ToldEntry::Leave { session, .. } => {
                self.live.remove(&session);
                self.last = Last::Open(turn);
            }
            ToldEntry::Publish { thread } => self.last = Last::Published(turn, thread),
        }
        Ok(())
    }

    // Adds an entry that may stand after the others.
    fn add(&mut self, alloc: Global, turn: u64, entry: ToldEntry) -> Result<(), AllocError>
        requires keeps { Keeps self.old }
        requires range { is_row (note (turn, entry_in entry)) ≡ true }
        requires rises { rises_with self.old.from self.old.entries (note (turn, entry_in entry)) ≡ true }
        requires joins { joins_with self.old.entries (note (turn, entry_in entry)) ≡ true }
        ensures keeps { OnOk result (Keeps self.new) }
        ensures from { OnOk result (self.new.from ≡ self.old.from) }
        ensures entries { OnOk result (self.new.entries ≡ self.old.entries ++ (turn, entry_in entry.entry) ∷ []) }
    {
        self.meet(turn, entry)?;
        let entry = entry.keep(alloc)?;
        self.entries.push((turn, entry))?;
        Ok(())
    }

    /// Takes an entry, or tells which rule it breaks.
    pub fn take(
        &mut self,
        alloc: Global,
        plan: &Plan,
        turn: u64,
        entry: ToldEntry,
    ) -> Result<(), JournalFault>
        requires keeps { Keeps self.old }
        requires range { is_row (note (turn, entry_in entry)) ≡ true }
        requires room { length self.old.entries < 2 ^ 63 }
        ensures keeps { OnOk result (Keeps self.new) }
        ensures from { OnOk result (self.new.from ≡ self.old.from) }
        ensures entries { OnOk result (self.new.entries ≡ self.old.entries ++ (turn, entry_in entry.entry) ∷ []) }
        ensures published { OnOk result (may_publish (plan_of plan.now) (entry_in entry.entry) ≡ true) }
        ensures breaks { IfErr result (λ e. Breaks (plan_of plan.now) self.old.from self.old.entries
            (note (turn, entry_in entry.entry)) e) }
    {
        let line = self.entries.len() + 3;
        if !self.rises(turn, entry) {
            return Err(JournalFault::NotRising { line });
        }
        if !self.joins(turn, entry) {
            return Err(JournalFault::NotJoined { line });
        }
        if !publishes(plan, entry) {
            return Err(JournalFault::NotAsync { line });
        }
        self.add(alloc, turn, entry)?;
        Ok(())
    }
}

// Whether the threads of a plan may publish so.
fn publishes(plan: &Plan, entry: ToldEntry) -> bool
    ensures { result ≡ may_publish (plan_of plan.now) (entry_in entry.entry) }
{
    match entry {
        ToldEntry::Publish { thread } => is_async(plan.threads.as_slice(), thread),
        _ => true,
    }
}

// Whether the thread of this number is asynchronous.
fn is_async(threads: &[Thread], number: u8) -> bool
    ensures { result ≡ is_async_of (process_in threads.now number) }
{
    process_of(threads, number).is_async()
}
