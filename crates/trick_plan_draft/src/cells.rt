//! The cells by their full names, and the names that are taken.

ghost use Rattle.std.specs.Prelude.{◌≡◌, ◌+◌, ◌<◌, ◌≤◌, ◌^◌, IfOk, OnOk, length};
ghost use Rattle.trick_plan_deeds.specs.Deeds.{fitting};
ghost use Rattle.trick_plan_draft.specs.Cells.{is_taken_in, known_cells, no_cells, with_cell, with_cells, with_object, with_objects};
ghost use Rattle.trick_lang.specs.Wrap.{scalar_at};

use std::alloc::{AllocError, Global};
use trick_base::{Items, Word};
use trick_check_names::Names;
use trick_lang::{Cell, Object, Program, Scalar, Variable};
use trick_plan_deeds::fitting;
use trick_plan_variables::first_name;

/// The cells of a program with those that the lines so far declare, and the names that a declaration
/// cannot have.
#[derive(Drop)]
pub struct KnownCells {
    /// The cells by their full names, in order.
    pub names: Names<Cell>,
    /// Their types.
    pub scalars: Items<Scalar>,
    /// The full names up to their first `.` or `[`.
    pub firsts: Names<bool>,
    /// The names of the objects.
    pub objects: Names<bool>,
}

impl KnownCells {
    // No cell and no object.
    fn new(alloc: Global) -> Self
        ensures { result ≡ no_cells }
    {
        KnownCells {
            names: Names::new(alloc),
            scalars: Items::new(alloc),
            firsts: Names::new(alloc),
            objects: Names::new(alloc),
        }
    }

    fn add_objects(&mut self, objects: &[Object]) -> Result<(), AllocError>
        ensures known { OnOk result (self.new ≡ with_objects objects.now self.old) }
        ensures scalars { OnOk result (self.new.scalars ≡ self.old.scalars) }
    {
        for object in objects {
            let _was = self.objects.add(&object.name, true)?;
        }
        Ok(())
    }

    fn add_cell(&mut self, alloc: Global, cell: &Variable) -> Result<(), AllocError>
        requires { length self.old.scalars < 2 ^ 32 }
        ensures { OnOk result (self.new ≡ with_cell cell.now self.old) }
    {
        let number = Cell(self.scalars.len() as u32);
        let _was = self.names.add(&cell.name, number)?;
        self.scalars.push(cell.scalar)?;
        let first = Word::from_bytes(alloc, first_name(cell.name.as_slice()))?;
        let _was = self.firsts.add(&first, true)?;
        Ok(())
    }

    // Adds cells, last.
    pub(crate) fn add_cells(&mut self, alloc: Global, cells: &[Variable]) -> Result<(), AllocError>
        requires { length self.old.scalars + length cells.now ≤ 65536 }
        ensures { OnOk result (self.new ≡ with_cells cells.now self.old) }
    {
        for cell in cells {
            self.add_cell(alloc, cell)?;
        }
        Ok(())
    }

    // The objects and cells of a program.
    pub(crate) fn of(alloc: Global, program: &Program) -> Result<Self, AllocError>
        ensures { IfOk result (λ known. known ≡ known_cells program.now.objects program.now.cells) }
    {
        let mut known = KnownCells::new(alloc);
        known.add_objects(program.objects.as_slice())?;
        known.add_cells(alloc, program.cells.as_slice())?;
        Ok(known)
    }

    // The type of a cell; of one that is not there it is no cell's, and `Long`.
    fn scalar_of(&self, cell: Cell) -> Scalar
        ensures { result ≡ scalar_at self.now.scalars cell.0 }
    {
        match self.scalars.as_slice().get(cell.0 as usize) {
            Some(scalar) => *scalar,
            None => Scalar::Long,
        }
    }

    // The number, if it is one of the cell's type.
    pub(crate) fn fitting(&self, cell: Cell, number: i128) -> Option<i64>
        ensures { result ≡ fitting (scalar_at self.now.scalars cell.0) number }
    {
        fitting(self.scalar_of(cell), number)
    }

    // Whether an object has a name, or a cell's full name begins with it.
    pub(crate) fn is_taken(&self, alloc: Global, name: &Word) -> Result<bool, AllocError>
        ensures { IfOk result (λ taken. taken ≡ is_taken_in self.now name.now) }
    {
        if self.objects.meaning(name).is_some() {
            return Ok(true);
        }
        let first = Word::from_bytes(alloc, first_name(name.as_slice()))?;
        Ok(self.firsts.meaning(&first).is_some())
    }
}
