//! The numbers of a row, and its text.

ghost use Rattle.std.specs.Prelude.{◌≡◌, ◌++◌, IfOk, OnOk, Some, length, map};
ghost use Rattle.trick_lang.specs.declared.cells.Cell.{Cell};
ghost use Rattle.trick_model.specs.Records.{row as row_text, same_row};
ghost use Rattle.trick_model.specs.State.{number_at};
ghost use Rattle.trick_record.specs.Held.{Rests};

use crate::fields::{first, last, put};
use csv::Writer;
use itoa::Buffer;
use std::alloc::{AllocError, Global};
use trick_base::Items;
use trick_lang::{Cell, Cells};

// The number of a cell; past the last cell it is 0.
fn number<M: Cells>(memory: &M, cell: Cell) -> i64
    ensures { result ≡ number_at (M.numbers memory.now) cell.0 }
{
    if cell.0 < memory.len() {
        memory.get(cell)
    } else {
        0
    }
}

/// The numbers of these cells.
pub(crate) fn numbers<M: Cells>(
    alloc: Global,
    memory: &M,
    cells: &[Cell],
) -> Result<Vec<i64>, AllocError>
    ensures { IfOk result (λ row. row.items
        ≡ map (λ (cell : Cell). number_at (M.numbers memory.now) cell.0) cells.now) }
{
    let mut row = Vec::with_capacity(alloc, cells.len())?;
    for cell in cells {
        row.push(number(memory, *cell))?;
    }
    Ok(row)
}

/// Whether a row has the numbers that these cells have now.
pub(crate) fn is_same<M: Cells>(memory: &M, cells: &[Cell], row: &[i64]) -> bool
    ensures { result ≡ same_row (map (λ (cell : Cell). number_at (M.numbers memory.now) cell.0) cells.now) row.now }
{
    if cells.len() != row.len() {
        return false;
    }
    for i in 0..cells.len() {
        if number(memory, cells[i]) != row[i] {
            return false;
        }
    }
    true
}

/// Makes these numbers those that these cells have now, where there are as many.
pub(crate) fn renew<M: Cells>(memory: &M, cells: &[Cell], row: &mut Items<i64>)
    requires { length cells.now ≡ length row.old }
    ensures { row.new ≡ map (λ (cell : Cell). number_at (M.numbers memory.now) cell.0) cells.now }
{
    for i in 0..cells.len() {
        row.set(i, number(memory, cells[i]));
    }
}

/// Writes a row: the tic and the numbers of these cells.
pub(crate) fn write_row<M: Cells>(
    writer: &mut Writer<Vec<u8>>,
    tic: u64,
    memory: &M,
    cells: &[Cell],
) -> Result<(), AllocError>
    ensures { OnOk result ((bytes : _) → Rests (λ v. Some v.items) writer.old bytes
        → Rests (λ v. Some v.items) writer.new (bytes
        ++ row_text tic (map (λ (cell : Cell). number_at (M.numbers memory.now) cell.0) cells.now))) }
{
    let mut buffer = Buffer::new();
    first(writer, buffer.format(tic).as_bytes())?;
    for cell in cells {
        put(writer, buffer.format(number(memory, *cell)).as_bytes())?;
    }
    last(writer)
}
