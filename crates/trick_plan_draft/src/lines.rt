//! The lines of cells, jobs and reads.

ghost use Rattle.std.specs.Prelude.{◌≡◌, OnOk, false};
ghost use Rattle.trick_plan_variables.specs.Cells.{KeepsRest, is_taken};
ghost use Rattle.trick_plan_draft.specs.Cells.{AreNumbered};
ghost use Rattle.trick_plan_draft.specs.Jobs.{jobs_of};
ghost use Rattle.trick_plan_draft.specs.Kept.{Mirrors};
ghost use Rattle.trick_plan_draft.specs.Lines.{Did, add_read_line, assign_line, declare_line, depend_line, set_job_line};
ghost use Rattle.trick_plan_draft.specs.Seen.{AddsDeclared, declared_in};

use crate::limits::{PAIR_LIMIT, READ_LIMIT};
use crate::{Draft, LineFault};
use std::alloc::Global;
use trick_base::{CELL_LIMIT, Items, Word};
use trick_lang::{JobId, Program};
use trick_model::{Action, Depends, ReadAt};
use trick_plan_variables::{DeclareFault, SpelledDeclaration, add};

// Adds the cells of a declaration to a program, whose name is free.
fn add_declared(
    alloc: Global,
    program: &mut Program,
    known: &SpelledDeclaration,
) -> Result<(), LineFault>
    requires free { is_taken known.now.declaration.name program.old.objects program.old.cells ≡ false }
    ensures cells { AddsDeclared result program.old.cells program.new.cells known.now.declaration }
    ensures rest { KeepsRest program.old program.new }
{
    match add(alloc, program, known) {
        Ok(()) => Ok(()),
        Err(DeclareFault::TooManyCells { count: _ }) => Err(LineFault::TooMany {
            limit: CELL_LIMIT,
        }),
        Err(_) => Err(LineFault::OutOfMemory),
    }
}

impl Draft {
    /// `PATH = LIT`: the cell of a full name begins with a number. A name that is no cell's is
    /// `UnknownName`, and a number that its type does not have `OutOfRange`.
    pub fn assign(&mut self, name: &Word, number: i128) -> Result<(), LineFault>
        ensures { Did result self.new (assign_line name.now number self.old) }
    {
        let Some(cell) = self.cells.names.meaning(name) else {
            return Err(LineFault::UnknownName);
        };
        let Some(stored) = self.cells.fitting(cell, number) else {
            return Err(LineFault::OutOfRange);
        };
        self.assigns.push((cell, stored))?;
        Ok(())
    }

    /// `trick.exec_add_depends_on_job("target", I, "depended", J)`: the target waits for the depended
    /// job. `waiting_job` finds both; without one it is `UnknownJob`. The 513th pair is `TooMany`.
    pub fn depend(
        &mut self,
        target: Option<JobId>,
        depended: Option<JobId>,
    ) -> Result<(), LineFault>
        ensures { Did result self.new (depend_line target depended self.old) }
    {
        let Some(target) = target else {
            return Err(LineFault::UnknownJob);
        };
        let Some(depended) = depended else {
            return Err(LineFault::UnknownJob);
        };
        if self.depends.len() >= PAIR_LIMIT {
            return Err(LineFault::TooMany {
                limit: PAIR_LIMIT as u64,
            });
        }
        self.depends.push(Depends { target, depended })?;
        Ok(())
    }

    /// `trick.exec_set_job_onoff("job", I, LIT)`: a job begins on or off. `job_of` finds it; without
    /// one it is `UnknownJob`.
    pub fn set_job(&mut self, job: Option<JobId>, on: bool) -> Result<(), LineFault>
        ensures { Did result self.new (set_job_line job on self.old) }
    {
        let Some(job) = job else {
            return Err(LineFault::UnknownJob);
        };
        let place = job.0 as usize;
        if place >= self.jobs.on.len() {
            return Ok(());
        }
        self.jobs.on.set(place, on);
        Ok(())
    }

    /// `trick.TMM_declare_var_s("type name[n][m]")`: cells are declared, and added to the program. A
    /// name that is taken is `TwiceNamed`, a text that does not read (None) `BadAction`, and more than
    /// 65,536 cells are `TooMany`.
    pub fn declare(
        &mut self,
        alloc: Global,
        program: &mut Program,
        declared: Option<&SpelledDeclaration>,
    ) -> Result<(), LineFault>
        requires { Mirrors program.old self.old }
        ensures line { Did result self.new (declare_line (declared_in declared.entry) self.old) }
        ensures cells { OnOk result (Mirrors program.new self.new) }
        ensures rest { KeepsRest program.old program.new }
    {
        let Some(known) = declared else {
            return Err(LineFault::BadAction);
        };
        if self.cells.is_taken(alloc, &known.declaration.name)? {
            return Err(LineFault::TwiceNamed);
        }
        let count = program.cells.len();
        add_declared(alloc, program, known)?;
        self.cells
            .add_cells(alloc, &program.cells.as_slice()[count..])?;
        Ok(())
    }

    /// `trick.add_read(TIME, "actions")`: actions at a tic, which is at most 10^15. Actions that do not
    /// read (None) or cannot all be done are `BadAction`, and the 4,097th read is `TooMany`.
    pub fn add_read(
        &mut self,
        alloc: Global,
        program: &Program,
        tic: u64,
        actions: Option<Items<Action>>,
    ) -> Result<(), LineFault>
        requires { AreNumbered self.old.cells }
        ensures { Did result self.new (add_read_line (jobs_of program.now) tic actions self.old) }
    {
        let Some(actions) = self.deeds_in(alloc, program, actions)? else {
            return Err(LineFault::BadAction);
        };
        if self.reads.len() >= READ_LIMIT {
            return Err(LineFault::TooMany {
                limit: READ_LIMIT as u64,
            });
        }
        self.reads.push(ReadAt { tic, actions })?;
        Ok(())
    }
}
