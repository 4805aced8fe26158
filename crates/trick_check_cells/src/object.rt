//! The objects and the enum items of a file.

ghost use Rattle.std.specs.Prelude.{◌≡◌, ◌++◌, IfOk, OnOk};
ghost use Rattle.trick_check_cells.specs.Tables.{item_row, item_rows, object_row, object_rows};

use crate::field::narrow;
use crate::size::global_size;
use std::alloc::{AllocError, Global as Memory};
use trick_base::{Items, Word};
use trick_check_names::{Base, Global, Names};
use trick_lang::{EnumItem, Object};

// Adds an object that has so many cells before it.
fn add_object(
    alloc: Memory,
    first: u32,
    name: &[u8],
    global: Global,
    objects: &mut Items<Object>,
) -> Result<(), AllocError>
    ensures { OnOk result (objects.new ≡ objects.old ++ object_row first name.now global) }
{
    if let Global::Object(Base::Group(number)) = global {
        let class = u32::try_from(number).map_err(|_| AllocError)?;
        objects.push(Object {
            name: Word::from_bytes(alloc, name)?,
            class,
            first,
        })?;
    }
    Ok(())
}

/// The objects of a file in order, where these are the counts of each struct and class.
pub fn objects(
    alloc: Memory,
    sizes: &[u64],
    names: &Names<Global>,
) -> Result<Items<Object>, AllocError>
    ensures { IfOk result (λ objects. objects ≡ object_rows sizes.now 0 names.now) }
{
    let mut objects = Items::new(alloc);
    let mut first: u32 = 0;
    for place in 0..names.len() {
        let (name, global) = names.entry(place);
        add_object(alloc, first, name, global, &mut objects)?;
        first = narrow(u64::from(first).saturating_add(global_size(sizes, global)));
    }
    Ok(objects)
}

// Adds an item.
fn add_item(
    alloc: Memory,
    name: &[u8],
    global: Global,
    items: &mut Items<EnumItem>,
) -> Result<(), AllocError>
    ensures { OnOk result (items.new ≡ items.old ++ item_row name.now global) }
{
    if let Global::Item(value) = global {
        items.push(EnumItem {
            name: Word::from_bytes(alloc, name)?,
            value,
        })?;
    }
    Ok(())
}

/// The enum items of a file in order, with their values.
pub fn items(alloc: Memory, names: &Names<Global>) -> Result<Items<EnumItem>, AllocError>
    ensures { IfOk result (λ items. items ≡ item_rows names.now) }
{
    let mut items = Items::new(alloc);
    for place in 0..names.len() {
        let (name, global) = names.entry(place);
        add_item(alloc, name, global, &mut items)?;
    }
    Ok(items)
}
