//! The row of a group at a tic, in a buffer that is kept from row to row.

ghost use Rattle.std.specs.Prelude.{◌≡◌, ◌<◌, [], IfOk, OnErr, OnOk, length, map};
ghost use Rattle.trick_lang.specs.declared.cells.Cell.{Cell};
ghost use Rattle.trick_model.specs.Records.{log_name, row as row_text, row_kept, row_writes, writes_row};
ghost use Rattle.trick_model.specs.State.{number_at, seen};
ghost use Rattle.trick_record.specs.Added.{added, group_at};

use crate::fields::{line_writer, lines_of};
use crate::group_of::group_of;
use crate::last_rows::{is_new, keep};
use crate::values::write_row;
use csv::Writer;
use std::alloc::{AllocError, Global};
use std::marker::Model;
use std::mem::replace;
use trick_lang::{Cell, Cells};
use trick_model::{Group, Plan, State};

/// Makes the rows of a run's groups by one writer, which is made once and kept, one row after another in one
/// buffer. Contracts see the text of the last row that it made.
#[derive(Drop)]
pub struct Recorder {
    alloc: Global,
    writer: Writer<Vec<u8>>,
    // Where the last row begins among those that the buffer still holds.
    start: usize,
}

impl Model for Recorder {
    ghost use Rattle.csv.specs.Writing.{writer_under};
    ghost use Rattle.std.specs.Prelude.{ℕ, ◌≤◌, List, Some, drop, length};
    ghost use Rattle.trick_record.specs.Held.{Rests};

    ghost Value = { List ℕ };

    ghost view = { λ recorder. drop recorder.start (writer_under recorder.writer).items };

    ghost invariant = { λ recorder. Rests (λ v. Some v.items) recorder.writer (writer_under recorder.writer).items
        × (recorder.start ≤ length (writer_under recorder.writer).items) };
}

// The most bytes of earlier rows that stand before a row. A writer lets go of what it wrote only at its end, so
// a new one is made where there are more, in the same buffer.
const KEPT_ROOM: usize = 65_536;

// The most bytes of a number and what stands behind it.
const NUMBER_ROOM: usize = 21;

// The room of the longest row of a group.
fn room(group: &Group) -> usize {
    group
        .cells
        .len()
        .saturating_add(1)
        .saturating_mul(NUMBER_ROOM)
}

// Whether a group writes a row.
fn writes<M: Cells>(tic: u64, k: usize, group: &Group, state: &State<M>) -> bool
    requires { 0 < group.now.cycle }
    ensures { result ≡ writes_row tic k group.now (seen M.numbers state.now) }
{
    state.groups.is_on(k) && tic % group.cycle == 0 && (!group.changes || is_new(group, k, state))
}

impl Recorder {
    /// A recorder of a plan's rows, with room for the longest of them. It has made none. The only refusal is
    /// for want of memory.
    pub fn new(alloc: Global, plan: &Plan) -> Result<Self, AllocError>
        ensures { IfOk result (λ recorder. recorder ≡ []) }
    {
        let mut longest = 0;
        for group in plan.groups.as_slice() {
            longest = longest.max(room(group));
        }
        let rows = Vec::with_capacity(alloc, longest.saturating_add(KEPT_ROOM))?;
        Ok(Recorder {
            alloc,
            writer: line_writer(rows),
            start: 0,
        })
    }

    /// The text of the last row, as it was made.
    pub fn text(&self) -> &[u8]
        ensures { result.now ≡ self.now }
    {
        &self.writer.get_ref().as_slice()[self.start..]
    }

    // Forgets the rows that were made, and keeps their memory.
    fn forget(&mut self)
        ensures { self.new ≡ [] }
    {
        let rows = lines_of(replace(&mut self.writer, line_writer(Vec::new(self.alloc))));
        if let Ok(mut rows) = rows {
            rows.clear();
            self.writer = line_writer(rows);
        }
        self.start = 0;
    }

    // Makes the text of a row: the tic and the numbers of these cells.
    fn make<M: Cells>(&mut self, tic: u64, memory: &M, cells: &[Cell]) -> Result<(), AllocError>
        ensures { OnOk result (self.new
            ≡ row_text tic (map (λ (cell : Cell). number_at (M.numbers memory.now) cell.0) cells.now)) }
    {
        if self.writer.get_ref().len() > KEPT_ROOM {
            self.forget();
        }
        self.start = self.writer.get_ref().len();
        let made = write_row(&mut self.writer, tic, memory, cells);
        if made.is_err() {
            // The line that was begun is in the way of the next one.
            self.writer = line_writer(Vec::new(self.alloc));
            self.start = 0;
        }
        made
    }

    /// Makes the row that a group writes at a tic, and tells whether there is one. There is none where the
    /// group is off, where its cycle does not divide the tic, and where it records on change and no number
    /// has changed since its last row. `group` is the number of a group of the plan. A group that records on
    /// change keeps the row as its last one, in the place of the one before. It takes no memory for the text
    /// of a row of the plan that it was made for, and none for a last row but the first. The only refusal is
    /// for want of memory, and changes nothing but the text. `docs/RULES.md` has the rule and
    /// `docs/FORMATS.md` the form of a row.
    pub fn row<M: Cells>(
        &mut self,
        plan: &Plan,
        group: u32,
        state: &mut State<M>,
        tic: u64,
    ) -> Result<bool, AllocError>
        requires group { group < length plan.now.groups }
        ensures row { IfOk result (λ is_made. added (log_name (group_at plan.now.groups group)) is_made self.new
            ≡ row_writes tic group (group_at plan.now.groups group) (seen M.numbers state.old)) }
        ensures kept { OnOk result (seen M.numbers state.new
            ≡ row_kept tic group (group_at plan.now.groups group) (seen M.numbers state.old)) }
        ensures memory { state.new.memory ≡ state.old.memory }
        ensures refused { OnErr result (state.new ≡ state.old) }
    {
        let k = group as usize;
        let group = group_of(plan, group);
        if !writes(tic, k, group, state) {
            return Ok(false);
        }
        self.make(tic, &state.memory, group.cells.as_slice())?;
        if group.changes {
            keep(self.alloc, group, k, state)?;
        }
        Ok(true)
    }
}
