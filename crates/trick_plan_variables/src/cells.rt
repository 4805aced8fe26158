ghost use Rattle.std.specs.Prelude.{◌≡◌, ◌++◌, ◌≤◌, IfOk, OnOk};
ghost use Rattle.trick_plan_variables.specs.Cells.{cells_named, cells_of, count_of, element, elements, full_names, row_elements, total};

use crate::Declaration;
use itoa::Buffer;
use std::alloc::{AllocError, Global};
use trick_base::{Items, Word};
use trick_lang::{Scalar, Variable};

// An element of an array, by its index.
fn element(alloc: Global, name: &[u8], index: u64) -> Result<Word, AllocError>
    ensures { IfOk result (λ word. word ≡ element name.now index) }
{
    let mut buffer = Buffer::new();
    let mut bytes = Vec::from_slice(alloc, name)?;
    bytes.push(b'[')?;
    bytes.extend_from_slice(buffer.format(index).as_bytes())?;
    bytes.push(b']')?;
    Ok(Items::from_vec(bytes))
}

// Adds the elements of an array.
fn push_elements(
    alloc: Global,
    cells: &mut Vec<Variable>,
    scalar: Scalar,
    name: &[u8],
    count: u64,
) -> Result<(), AllocError>
    ensures { OnOk result (cells.new.items ≡ cells.old.items ++ cells_named scalar (elements name.now count)) }
{
    for index in 0..count {
        let name = element(alloc, name, index)?;
        cells.push(Variable { name, scalar })?;
    }
    Ok(())
}

// Adds the elements of an array of rows.
fn push_rows(
    alloc: Global,
    cells: &mut Vec<Variable>,
    scalar: Scalar,
    name: &[u8],
    rows: u64,
    columns: u64,
) -> Result<(), AllocError>
    ensures { OnOk result (cells.new.items
        ≡ cells.old.items ++ cells_named scalar (row_elements name.now rows columns)) }
{
    if columns == 0 {
        return Ok(());
    }
    for index in 0..rows {
        let row = element(alloc, name, index)?;
        push_elements(alloc, cells, scalar, row.as_slice(), columns)?;
    }
    Ok(())
}

/// The cells of a declaration.
pub(crate) fn cells_of(
    alloc: Global,
    declaration: &Declaration,
) -> Result<Vec<Variable>, AllocError>
    ensures { IfOk result (λ cells. cells.items ≡ cells_of declaration.now) }
{
    let mut cells = Vec::new(alloc);
    let name = declaration.name.as_slice();
    let scalar = declaration.scalar;
    match declaration.lengths.as_slice() {
        [] => cells.push(Variable {
            name: declaration.name.try_clone()?,
            scalar,
        })?,
        [count] => push_elements(alloc, &mut cells, scalar, name, *count)?,
        [rows, columns, ..] => push_rows(alloc, &mut cells, scalar, name, *rows, *columns)?,
    }
    Ok(cells)
}

// How many cells a variable of these lengths has.
fn count_of(lengths: &[u64]) -> u128
    ensures { result ≡ count_of lengths.now }
{
    match lengths {
        [] => 1,
        [count] => u128::from(*count),
        [rows, columns, ..] => u128::from(*rows) * u128::from(*columns),
    }
}

/// How many cells there are with those of a variable of these lengths. The count stands still at
/// 2^64 - 1.
pub(crate) fn total(lengths: &[u64], cells: &[Variable]) -> u64
    ensures { result ≡ total lengths.now cells.now }
{
    let count = count_of(lengths).saturating_add(cells.len() as u128);
    count.min(u128::from(u64::MAX)) as u64
}
