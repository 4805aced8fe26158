ghost use Rattle.std.specs.Prelude.{◌≡◌, IfOk, IfSome};
ghost use Rattle.trick_memory.specs.Packed.{bytes_of};
ghost use Rattle.trick_memory.specs.Stored.{cell_of, zeros};
ghost use Rattle.trick_model.specs.NameAt.{cell_name};
ghost use Rattle.trick_model.specs.Valid.{cell_names};

use crate::names::CellNames;
use crate::packing::{pack_at, unpack_at, width};
use std::alloc::{AllocError, Global};
use std::marker::Model;
use trick_lang::{Cell, Cells, Scalar};
use trick_model::{Plan, cell_name};

/// The memory of a simulation: for each cell a number of its type. Cells are found by their full
/// names. The numbers are kept as bytes, cell after cell and without gaps.
#[derive(Drop)]
pub struct Memory {
    names: CellNames,
    scalars: Vec<Scalar>,
    // Where the bytes of each cell begin.
    offsets: Vec<u32>,
    bytes: Vec<u8>,
}

impl Model for Memory {
    ghost use Rattle.trick_memory.specs.Packed.{numbers_of};
    ghost use Rattle.trick_memory.specs.Stored.{IsHeld, Stored};

    ghost Value = { Stored };

    ghost view = { λ memory. record {
      names = memory.names;
      scalars = memory.scalars.items;
      numbers = numbers_of memory.scalars.items memory.bytes.items;
    } };

    ghost invariant = { λ memory.
        IsHeld memory.names memory.scalars.items memory.offsets.items memory.bytes.items };
}

impl Memory {
    /// The memory of the cells of a plan. Each number is 0.
    pub fn new(alloc: Global, plan: &Plan) -> Result<Self, AllocError>
        ensures { IfOk result (λ memory. memory ≡ zeros plan.now.program.cells) }
    {
        let mut names = CellNames::new(alloc);
        let mut scalars = Vec::new(alloc);
        let mut offsets = Vec::new(alloc);
        let mut bytes: Vec<u8> = Vec::new(alloc);
        for variable in plan.program.cells.as_slice() {
            let start = bytes.len();
            names.push(&variable.name)?;
            scalars.push(variable.scalar)?;
            offsets.push(start as u32)?;
            bytes.resize(start + width(variable.scalar), 0)?;
        }
        Ok(Memory {
            names,
            scalars,
            offsets,
            bytes,
        })
    }

    /// The bytes of the numbers, cell after cell and without gaps: 1 byte for `bool`, `char` and
    /// `unsigned char`, 2 for the types of `short`, 4 for those of `int` and 8 for `long`, the lowest
    /// byte first, and numbers below 0 in two's complement. Takes no memory.
    pub fn bytes(&self) -> &[u8]
        ensures { result.now ≡ bytes_of self.now.scalars self.now.numbers }
    {
        self.bytes.as_slice()
    }

    /// The cell of a full name, byte for byte, in a plan of whose cells this is the memory. With any
    /// other plan too the cell that is found has that name. Takes no memory. Cases alone call it, as a
    /// yardstick: a client's name is looked for in the plan.
    pub fn find(&self, plan: &Plan, name: &[u8]) -> Option<Cell>
        ensures cell { self.now.names ≡ cell_names plan.now.program.cells
            → result ≡ cell_of name.now (cell_names plan.now.program.cells) }
        ensures named { IfSome result (λ cell. cell_name plan.now.program.cells cell.0 ≡ name.now) }
    {
        let cell = Cell(self.names.find(name)? as u32);
        if self.name(plan, cell) == name {
            Some(cell)
        } else {
            None
        }
    }

    /// The full name of a cell of a plan; no byte for a cell that is not there. Takes no memory.
    pub fn name<'a>(&self, plan: &'a Plan, cell: Cell) -> &'a [u8]
        ensures { result.now ≡ cell_name plan.now.program.cells cell.0 }
    {
        cell_name(&plan.program, cell)
    }
}

impl Cells for Memory {
    ghost use Rattle.std.specs.Prelude.{◌≡◌, ◌<◌, length, slice_set};
    ghost use Rattle.trick_lang.specs.Wrap.{IsInRange};

    ghost numbers = { λ memory. memory.numbers };

    ghost scalars = { λ memory. memory.scalars };

    fn len(&self) -> u32 {
        self.scalars.len() as u32
    }

    fn get(&self, cell: Cell) -> i64 {
        let index = cell.0 as usize;
        unpack_at(
            &self.bytes,
            self.offsets[index] as usize,
            self.scalars[index],
        )
    }

    // It keeps the names, too.
    fn set(&mut self, cell: Cell, number: i64)
        requires cell { cell.0 < length self.old.numbers }
        requires range { IsInRange self.old.scalars cell.0 number }
        ensures numbers { self.new.numbers ≡ slice_set self.old.numbers cell.0 number }
        ensures scalars { self.new.scalars ≡ self.old.scalars }
        ensures names { self.new.names ≡ self.old.names }
    {
        let index = cell.0 as usize;
        let start = self.offsets[index] as usize;
        pack_at(&mut self.bytes, start, self.scalars[index], number);
    }
}
