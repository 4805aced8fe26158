//! A memory that nobody else sees.

ghost use Rattle.std.specs.Prelude.{◌≡◌, ◌<◌, ◌≤◌, [], All, IfOk, length, map, vec_capacity};
ghost use Rattle.trick_lang.specs.declared.cells.Cell.{Cell};
ghost use Rattle.trick_model.specs.Beside.{spread as spread_of};
ghost use Rattle.trick_model.specs.ValidState.{AreNumbersOf};
ghost use Rattle.trick_model.specs.Laws.{is_among};
ghost use Rattle.trick_model.specs.State.{number_at};
ghost use Rattle.trick_post_trays.specs.Scratch.{IsWritten, cell_ids, cleared};

use std::alloc::{AllocError, Global};
use std::marker::Model;
use trick_lang::{Cell, Cells, Program, Scalar};

/// A memory of the cells of a program that nobody else sees.
#[derive(Drop)]
pub struct Scratch {
    scalars: Vec<Scalar>,
    numbers: Vec<i64>,
}

impl Model for Scratch {
    ghost use Rattle.trick_post_trays.specs.Scratch.{AreStored, Numbers};

    ghost Value = { Numbers };

    ghost view = { λ scratch. record { scalars = scratch.scalars.items; numbers = scratch.numbers.items } };

    ghost invariant = { λ scratch. AreStored scratch.scalars.items scratch.numbers.items };
}

impl Scratch {
    /// A memory in which each number is 0.
    pub fn new(alloc: Global, program: &Program) -> Result<Self, AllocError>
        ensures { IfOk result (λ scratch. scratch ≡ cleared program.now) }
    {
        let mut scalars = Vec::new(alloc);
        for variable in program.cells.as_slice() {
            scalars.push(variable.scalar)?;
        }
        let numbers = vec![in alloc; 0; program.cells.len()]?;
        Ok(Scratch { scalars, numbers })
    }
}

impl Cells for Scratch {
    ghost numbers = { λ scratch. scratch.numbers };

    ghost scalars = { λ scratch. scratch.scalars };

    fn len(&self) -> u32 {
        self.numbers.len() as u32
    }

    fn get(&self, cell: Cell) -> i64 {
        self.numbers[cell.0 as usize]
    }

    fn set(&mut self, cell: Cell, number: i64) {
        self.numbers[cell.0 as usize] = number;
    }
}

/// Puts a number into each of these cells.
pub fn spread(cells: &[Cell], numbers: &[i64], scratch: &mut Scratch)
    requires below { All (λ (cell : Cell). cell.0 < length scratch.old.numbers) cells.now }
    requires right { AreNumbersOf scratch.old.scalars (cell_ids cells.now) numbers.now }
    requires as_many { length numbers.now ≡ length cells.now }
    ensures numbers { scratch.new.numbers ≡ spread_of (cell_ids cells.now) numbers.now scratch.old.numbers }
    ensures scalars { scratch.new.scalars ≡ scratch.old.scalars }
{
    for place in 0..cells.len() {
        scratch.set(cells[place], numbers[place]);
    }
}

/// Puts 0 into each of these cells.
pub fn clear(cells: &[Cell], scratch: &mut Scratch)
    requires { All (λ (cell : Cell). cell.0 < length scratch.old.numbers) cells.now }
    ensures numbers { IsWritten (λ c. is_among c (cell_ids cells.now)) [] scratch.old.numbers scratch.new.numbers }
    ensures scalars { scratch.new.scalars ≡ scratch.old.scalars }
{
    for cell in cells {
        scratch.set(*cell, 0);
    }
}

/// Reads the number of each of these cells. Takes no memory.
pub fn gather(cells: &[Cell], scratch: &Scratch, numbers: &mut Vec<i64>)
    requires below { All (λ (cell : Cell). cell.0 < length scratch.now.numbers) cells.now }
    requires room { length cells.now ≤ vec_capacity numbers.old }
    ensures numbers { numbers.new.items ≡ map (number_at scratch.now.numbers) (cell_ids cells.now) }
    ensures right { AreNumbersOf scratch.now.scalars (cell_ids cells.now) numbers.new.items }
    ensures room { vec_capacity numbers.new ≡ vec_capacity numbers.old }
{
    numbers.clear();
    for cell in cells {
        numbers.push_reserved(scratch.get(*cell));
    }
}
