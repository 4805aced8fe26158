//! Places of conditions, by their full names.

ghost use Rattle.std.specs.Prelude.{◌≡◌, ◌++◌, ◌∷◌, [], IfOk, OnOk, Some, if◌then◌else◌};
ghost use Rattle.trick_check_blocks.specs.Places.{literal_count, literal_of};
ghost use Rattle.trick_check_cells.specs.Cells.{bracket};
ghost use Rattle.trick_plan_conditions.specs.Held.{PushesPart, known_by};
ghost use Rattle.trick_plan_conditions.specs.Places.{full_name, has_computed, item_or_cell, looked_up, referent_of};
ghost use Rattle.trick_lang.specs.Syntax.{expression_of, parts_of_list};

use itoa::Buffer;
use std::alloc::{AllocError, Global};
use trick_base::{Items, Word};
use trick_check_names::Names;
use trick_lang::Cell;
use trick_lang::syntax::{Expr, Part, Path};

/// What a place of a condition stands for.
#[derive(Clone, Copy, Debug, PartialEq, Eq)]
pub(crate) enum Referent {
    /// The value of an enum item.
    Item(i32),
    Cell(Cell),
    /// It has an index that is no literal, and is not looked up.
    Computed,
    Nothing,
}

// The number of a literal index.
fn literal(e: &Expr) -> Option<u64>
    ensures { result ≡ literal_of (expression_of e.now) }
{
    match e {
        Expr::Whole { line: _, number } => Some(*number),
        Expr::Truth { line: _, value } => Some(if *value { 1 } else { 0 }),
        _ => None,
    }
}

// Whether a part is an index that is no literal.
fn is_computed(part: &Part) -> bool
    ensures { result ≡ has_computed (parts_of_list (part.now ∷ [])) }
{
    match part {
        Part::Member { line: _, name: _ } => false,
        Part::Index(e) => literal(e).is_none(),
    }
}

/// Whether some index of a place is no literal.
pub(crate) fn has_computed(parts: &[Part]) -> bool
    ensures { result ≡ has_computed (parts_of_list parts.now) }
{
    for part in parts {
        if is_computed(part) {
            return true;
        }
    }
    false
}

// Whether a part is a literal index.
fn is_literal(part: &Part) -> bool
    ensures { literal_count (parts_of_list (part.now ∷ [])) ≡ (if result then 1 else 0) }
{
    match part {
        Part::Member { line: _, name: _ } => false,
        Part::Index(e) => literal(e).is_some(),
    }
}

/// How many indexes of a place are literals.
pub(crate) fn literals(parts: &[Part]) -> u64
    ensures { result ≡ literal_count (parts_of_list parts.now) }
{
    let mut count: u64 = 0;
    for part in parts {
        if is_literal(part) {
            count += 1;
        }
    }
    count
}

// Adds a part to a name, or tells that it is an index that is no literal.
fn push_part(name: &mut Vec<u8>, part: &Part) -> Result<bool, AllocError>
    ensures { IfOk result (λ pushed. PushesPart name.old.items (parts_of_list (part.now ∷ [])) pushed name.new.items) }
{
    match part {
        Part::Member {
            line: _,
            name: member,
        } => {
            name.push(b'.')?;
            name.extend_from_slice(member.as_slice())?;
            Ok(true)
        }
        Part::Index(e) => match literal(e) {
            None => Ok(false),
            Some(index) => {
                push_index(name, index)?;
                Ok(true)
            }
        },
    }
}

// Adds `[k]` to a name.
fn push_index(name: &mut Vec<u8>, index: u64) -> Result<(), AllocError>
    ensures { OnOk result (name.new.items ≡ name.old.items ++ bracket index) }
{
    name.push(b'[')?;
    name.extend_from_slice(Buffer::new().format(index).as_bytes())?;
    name.push(b']')?;
    Ok(())
}

// The full name of a place; none where an index is no literal.
fn full_name(alloc: Global, path: &Path) -> Result<Option<Word>, AllocError>
    ensures { IfOk result (λ name. name ≡ full_name path.now.name (parts_of_list path.now.parts.items)) }
{
    let mut name = Vec::from_slice(alloc, path.name.as_slice())?;
    for part in path.parts.as_slice() {
        if !push_part(&mut name, part)? {
            return Ok(None);
        }
    }
    Ok(Some(Items::from_vec(name)))
}

// What a full name stands for. Of an enum item and a cell of one name, the item counts.
fn item_or_cell(name: &Word, items: &Names<i32>, cells: &Names<Cell>) -> Referent
    ensures { result ≡ looked_up (known_by items.now cells.now) (Some name.now) }
{
    match items.meaning(name) {
        Some(value) => Referent::Item(value),
        None => match cells.meaning(name) {
            Some(cell) => Referent::Cell(cell),
            None => Referent::Nothing,
        },
    }
}

/// What a place stands for.
pub(crate) fn stands_for(
    alloc: Global,
    path: &Path,
    items: &Names<i32>,
    cells: &Names<Cell>,
) -> Result<Referent, AllocError>
    ensures { IfOk result (λ found. found
        ≡ referent_of (known_by items.now cells.now) path.now.name (parts_of_list path.now.parts.items)) }
{
    match full_name(alloc, path)? {
        None => Ok(Referent::Computed),
        Some(name) => Ok(item_or_cell(&name, items, cells)),
    }
}
