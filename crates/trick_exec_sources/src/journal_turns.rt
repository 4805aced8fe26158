//! A journal as a source of entries.

ghost use Rattle.std.specs.Coded.{Coded-set};
ghost use Rattle.std.specs.List.{list_any};
ghost use Rattle.std.specs.Prelude.{◌≡◌, ◌≤◌, ◌<◌, ◌+◌, [], ◌&&◌, ◌||◌, not, nat_le, cond, true, false, IsTrue};
ghost use Rattle.trick_exec_sources.specs.Due.{before, is_line, may_go_on, sessions_so_far, since};
ghost use Rattle.trick_model.specs.Time.{last_turn};
ghost use Rattle.trick_model.specs.Turn.{is_frozen as is_frozen_of};

use crate::due::{DueEntries, has_line};
use crate::sessions::resume;
use crate::{Next, Turns};
use std::alloc::{AllocError, Global};
use std::snapshot::Snapshot;
use trick_lang::Cells;
use trick_model::{Entry, Journal, Mode, Session, State};

/// What a journal gives a run from a turn on: a list of entries for each turn, and the journal's end.
///
/// Entries of earlier turns are skipped. The sessions that joined and did not leave in them join first
/// at the first turn, in rising number; but these joins are no entries of the journal, so that they do not
/// keep a run that starts in Freeze from its end. Making it goes through the entries once; each is then
/// moved out at its turn. A turn without entries takes no memory.
#[derive(Drop)]
pub struct JournalTurns {
    // What is left, and what was left at first: only proofs read that.
    due: DueEntries,
    whole: Snapshot<DueEntries>,
    // The first turn, and the one that comes next.
    start: u64,
    at: u64,
    end: u64,
    // A list after the end was given.
    over: bool,
    owes: bool,
    ghost forward: { start ≤ at },
    ghost end_right: { end ≤ last_turn },
    ghost left: { due ≡ since at whole.value } by { Coded-set due-code due (since at whole.value) },
    ghost rules: { IsTrue (may_go_on at end (sessions_so_far over start at whole.value) due) },
    ghost behind_end: { IsTrue (not over || nat_le end at) },
    ghost owes_one: { IsTrue (not owes || list_any is_line due) },
}

// Whether no time passes in a mode.
fn is_frozen(mode: Mode) -> bool
    ensures { result ≡ is_frozen_of mode }
{
    matches!(mode, Mode::Freeze)
}

// Whether a join, a line or a leave is owed after a list, in Freeze or not, that has one or not.
fn owes_after(frozen: bool, said: bool, owed: bool) -> bool
    ensures { result ≡ cond said false (cond frozen true owed) }
{
    !said && (frozen || owed)
}

impl JournalTurns {
    ghost use Rattle.std.specs.Prelude.{IfOk, OnErr, OnOk};
    ghost use Rattle.trick_exec_sources.specs.Replay.{IsLater, sessions_of, told_of};
    ghost use Rattle.trick_model.specs.Journal.{is_of_session};
    ghost use Rattle.trick_model.specs.Run.{lists_of, next_of};
    ghost use Rattle.trick_exec_sources.specs.Joins.{joins_of};
    ghost use Rattle.trick_exec_sources.specs.Turns.{after_entries, behind, in_next, may_all_come, no_sessions};

    /// What a journal gives a run that starts at this turn, in this mode.
    pub fn new(alloc: Global, journal: Journal, start: u64, mode: Mode) -> Result<Self, AllocError>
        ensures told { IfOk result (λ turns. told_of turns
            ≡ record { lists = lists_of journal.entries journal.end start mode; end = journal.end }) }
        ensures owes { IfOk result (λ turns. turns.owes ≡ false) }
        ensures sessions { IfOk result (λ turns. sessions_of turns ≡ no_sessions) }
    {
        let Journal { entries, end, .. } = journal;
        let frozen = is_frozen(mode);
        let due = resume(alloc, entries.into_vec(), start, end, frozen)?;
        let whole = Snapshot::of(&due);
        Ok(JournalTurns {
            due,
            whole,
            start,
            at: start,
            end,
            over: false,
            owes: false,
        })
    }

    /// How many sessions join in the lists that it has still to give. It goes through what is left once.
    pub fn joins(&self) -> u64
        ensures { result ≡ joins_of (told_of self.now).lists }
    {
        self.due.joins()
    }

    // Whether, in Freeze or not, no line comes any more.
    fn is_done(&self, frozen: bool) -> bool
        ensures { result ≡ (frozen && not (list_any is_line self.now.due)) }
    {
        frozen && !self.due.has_line()
    }

    // How many turns are given no entry in Freeze, where no entry stands before the turn after them: the one that
    // comes next, which is this one, and those after it. Elsewhere none.
    fn gap(&self, frozen: bool, turn: u64) -> u64
        ensures frozen { 0 < result → frozen ≡ true }
        ensures none { 0 < result → before (self.now.at + result) self.now.due ≡ [] }
        ensures below { 0 < result → turn + result ≤ self.now.end }
    {
        if !frozen {
            return 0;
        }
        match self.due.first_turn() {
            Some(first) => first
                .saturating_sub(self.at)
                .min(self.end.saturating_sub(turn)),
            None => 0,
        }
    }

    // Passes so many turns in Freeze, before which no entry stands, while a line is still to come.
    fn pass_gap(&mut self, turns: u64)
        requires line { list_any is_line self.old.due ≡ true }
        requires none { before (self.old.at + turns) self.old.due ≡ [] }
        ensures { IsLater turns self.old self.new }
    {
        self.at += turns;
        self.owes = true;
    }

    // Whether the turn that comes next is below the end and has no entry.
    fn is_quiet(&self) -> bool
        ensures none { result ≡ true → before (self.now.at + 1) self.now.due ≡ [] }
        ensures below { result ≡ true → self.now.at < self.now.end }
    {
        self.at < self.end && self.due.none_before(self.at + 1)
    }

    // Passes the turn that comes next, which has no entry, in Freeze or not. It takes no memory.
    fn pass_quiet(&mut self, frozen: bool)
        requires line { frozen ≡ true → list_any is_line self.old.due ≡ true }
        requires none { before (self.old.at + 1) self.old.due ≡ [] }
        requires below { self.old.at < self.old.end }
        ensures list { [] ≡ next_of (told_of self.old).lists }
        ensures told { told_of self.new ≡ behind (told_of self.old) }
        ensures sessions { sessions_of self.new ≡ in_next (sessions_of self.old) }
        ensures owes { self.new.owes ≡ cond frozen true self.old.owes }
    {
        self.at += 1;
        self.owes = owes_after(frozen, false, self.owes);
    }

    // The entries of the turn that comes next, in Freeze or not. Where memory runs out nothing changes.
    fn next(&mut self, alloc: Global, frozen: bool) -> Result<Vec<Entry>, AllocError>
        requires { frozen ≡ true → list_any is_line self.old.due ≡ true }
        ensures list { IfOk result (λ list. list.items ≡ next_of (told_of self.old).lists) }
        ensures told { OnOk result (told_of self.new ≡ behind (told_of self.old)) }
        ensures rules { IfOk result (λ list. IsTrue (may_all_come list.items (in_next (sessions_of self.old)))) }
        ensures sessions { IfOk result (λ list. sessions_of self.new
            ≡ after_entries list.items (in_next (sessions_of self.old))) }
        ensures owes { IfOk result (λ list. self.new.owes
            ≡ cond (list_any is_of_session list.items) false (cond frozen true self.old.owes)) }
        ensures err { OnErr result (told_of self.new ≡ told_of self.old) }
    {
        if self.end <= self.at {
            self.over = true;
            return Ok(Vec::new(alloc));
        }
        let next = self.at + 1;
        let list = self.due.take_before(alloc, next)?;
        self.at = next;
        self.owes = owes_after(frozen, has_line(&list), self.owes);
        Ok(list)
    }
}

impl<M: Cells> Turns<M> for JournalTurns {
    ghost use Rattle.std.specs.Prelude.{refl, Some, true};
    ghost use Rattle.trick_exec_sources.specs.Replay.{AreTold, sessions_of, told_join, told_of};

    ghost went = { λ old answers messages new. AreTold (told_of old) answers (told_of new) };

    ghost owes = { λ turns. turns.owes };

    ghost journal = { λ turns. Some (told_of turns) };

    ghost decided = { λ turns. true };

    ghost sessions = { λ turns. sessions_of turns };

    ghost takes = { λ turns session. Unit {0} };

    fn gives_nothing(&mut self, state: &State<M>, _live: &[Session]) -> bool {
        if is_frozen(state.mode) || self.end <= state.turn || !self.is_quiet() {
            return false;
        }
        self.pass_quiet(false);
        true
    }

    fn entries(&mut self, alloc: Global, state: &State<M>, _live: &[Session]) -> Next {
        let frozen = is_frozen(state.mode);
        if self.is_done(frozen) {
            return Next::NoMore;
        }
        if self.end <= state.turn {
            return Next::Length {
                kept: self.end,
                given: (self.end + 1).max(state.turn),
            };
        }
        let turns = self.gap(frozen, state.turn);
        if turns > 0 {
            self.pass_gap(turns);
            return Next::Gap { turns };
        }
        if self.is_quiet() {
            self.pass_quiet(frozen);
            return Next::Nothing;
        }
        match self.next(alloc, frozen) {
            Ok(list) => Next::Entries(list),
            Err(_) => Next::OutOfMemory,
        }
    }

    fn ends(&mut self, turn: u64) -> Option<(u64, u64)> {
        if turn == self.end {
            return None;
        }
        Some((self.end, turn))
    }

    fn decides(&self) -> bool {
        true
    }

    fn send(&mut self, _session: u32, _bytes: &[u8]) -> Result<(), AllocError> {
        Ok(())
    }

    ghost reaches = { λ turns session there. tt };

    ghost went_none = { λ turns. refl };

    ghost went_join = { λ first second third early late some more one two. told_join _ _ _ early late one two };
}
