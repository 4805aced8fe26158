//! The entries that are left of a journal.

ghost use Rattle.std.specs.List.{list_any};
ghost use Rattle.std.specs.Option.{option_to_list};
ghost use Rattle.std.specs.Prelude.{◌≡◌, ◌∷◌, ◌++◌, ◌<◌, [], length, IfOk, IfSome, OnErr, IfNone, OnOk, List, true};
ghost use Rattle.trick_exec_sources.specs.Due.{before, is_line, joins_in, lines_of, since};
ghost use Rattle.trick_model.specs.Journal.{is_of_session as is_of_session_of, Noted};
ghost use Rattle.trick_model.specs.declared.entry.Entry.TheVariants.{Join};
ghost use Rattle.trick_exec_sources.specs.Joins.{is_join as is_join_of};

use std::alloc::{AllocError, Global};
use std::collections::VecDeque;
use std::marker::Model;
use trick_model::Entry;

/// Entries with their turns, the next one first, and how many joins, lines and leaves are among them.
#[derive(Drop)]
pub(crate) struct DueEntries {
    entries: VecDeque<(u64, Entry)>,
    lines: usize,
}

impl Model for DueEntries {
    ghost Value = { List Noted };

    ghost view = { λ due. due.entries.items };

    ghost invariant = { λ due. due.lines ≡ lines_of due.entries.items };
}

/// Whether an entry is a join, a line or a leave.
fn is_of_session(entry: &Entry) -> bool
    ensures { result ≡ is_of_session_of entry.now }
{
    !matches!(entry, Entry::Publish { .. })
}

/// Whether an entry is a join.
fn is_join(entry: &Entry) -> bool
    ensures { result ≡ is_join_of entry.now }
{
    matches!(entry, Entry::Join { .. })
}

/// Whether a join, a line or a leave is among entries.
pub(crate) fn has_line(list: &[Entry]) -> bool
    ensures { result ≡ list_any is_of_session_of list.now }
{
    for entry in list {
        if is_of_session(entry) {
            return true;
        }
    }
    false
}

// Counts the joins, lines and leaves.
fn count_lines(entries: &[(u64, Entry)]) -> usize
    ensures { result ≡ lines_of entries.now }
{
    let mut lines = 0;
    for entry in entries {
        if is_of_session(&entry.1) {
            lines += 1;
        }
    }
    lines
}

impl DueEntries {
    /// All these entries are left.
    pub fn new(entries: Vec<(u64, Entry)>) -> DueEntries
        ensures { result ≡ entries.items }
    {
        let lines = count_lines(&entries);
        DueEntries {
            entries: VecDeque::from_vec(entries),
            lines,
        }
    }

    /// Whether a join, a line or a leave is left.
    pub fn has_line(&self) -> bool
        ensures { result ≡ list_any is_line self.now }
    {
        0 < self.lines
    }

    /// How many joins are left.
    pub fn joins(&self) -> u64
        ensures { result ≡ joins_in self.now }
    {
        let mut joins = 0;
        for index in 0..self.entries.len() {
            if is_join(&self.entries[index].1) {
                joins += 1;
            }
        }
        joins
    }

    /// Puts a join in front. Where memory runs out nothing changes.
    pub fn join(&mut self, turn: u64, session: u32) -> Result<(), AllocError>
        ensures ok { OnOk result (self.new ≡ (turn, Join session) ∷ self.old) }
        ensures err { OnErr result (self.new ≡ self.old) }
    {
        self.entries.push_front((turn, Entry::Join { session }))?;
        self.lines += 1;
        Ok(())
    }

    /// The turn of the first entry that is left. No entry stands before it.
    pub fn first_turn(&self) -> Option<u64>
        ensures { IfSome result (λ turn. before turn self.now ≡ []) }
    {
        let (turn, _) = self.entries.front()?;
        Some(*turn)
    }

    /// Whether no entry of a turn below one is at the head.
    pub fn none_before(&self, turn: u64) -> bool
        ensures { result ≡ true → before turn self.now ≡ [] }
    {
        match self.entries.front() {
            Some((at, _)) => turn <= *at,
            None => true,
        }
    }

    // Takes the first entry out.
    fn pop(&mut self) -> Option<(u64, Entry)>
        ensures items { self.old ≡ option_to_list result ++ self.new }
        ensures none { IfNone result (self.old ≡ []) }
    {
        let entry = self.entries.pop_front()?;
        if is_of_session(&entry.1) {
            self.lines -= 1;
        }
        Some(entry)
    }

    /// Takes the first entry out where its turn is below one.
    pub fn pop_before(&mut self, turn: u64) -> Option<(u64, Entry)>
        ensures taken { IfSome result (λ e. self.old ≡ e ∷ self.new) }
        ensures below { IfSome result (λ e. e.0 < turn) }
        ensures none { IfNone result (before turn self.old ≡ []) }
        ensures rest { IfNone result (self.new ≡ self.old) }
    {
        let (at, _) = self.entries.front()?;
        if *at >= turn {
            return None;
        }
        self.pop()
    }

    // Counts the entries of turns below one, at the head.
    fn len_before(&self, turn: u64) -> usize
        ensures { result ≡ length (before turn self.now) }
    {
        for index in 0..self.entries.len() {
            if self.entries[index].0 >= turn {
                return index;
            }
        }
        self.entries.len()
    }

    /// Takes out the entries of turns below one, at the head. Where memory runs out nothing changes.
    pub fn take_before(&mut self, alloc: Global, turn: u64) -> Result<Vec<Entry>, AllocError>
        ensures list { IfOk result (λ list. list.items ≡ before turn self.old) }
        ensures left { OnOk result (self.new ≡ since turn self.old) }
        ensures err { OnErr result (self.new ≡ self.old) }
    {
        let count = self.len_before(turn);
        let mut list = Vec::with_capacity(alloc, count)?;
        while let Some((_, entry)) = self.pop_before(turn) {
            list.push_reserved(entry);
        }
        Ok(list)
    }
}
