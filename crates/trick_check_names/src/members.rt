//! Items of enums, members of structs and classes: what they declare, with the mistakes in it.

ghost use Rattle.std.specs.Prelude.{◌≡◌, ◌+ℤ◌, pos, OnOk, IfOk};
ghost use Rattle.trick_lang.specs.Syntax.{all_members_of, declarators_of, items_of, members_of, written_of};
ghost use Rattle.trick_check_names.specs.FileMistakes.{all_members_mistakes, declarator_mistakes, item_mistakes, member_type_mistakes, members_mistakes, value_mistakes};
ghost use Rattle.trick_check_names.specs.Mistakes.{noted};
ghost use Rattle.trick_check_names.specs.Tables.{base_of, int_or_zero, is_int, item_value, lengths_of, with_all_members, with_declarators, with_items, with_members};

use crate::found::{Found, declare};
use crate::{Base, Global, Lengths, Member, Names, Shape};
use std::alloc::AllocError;
use trick_lang::Scalar;
use trick_lang::syntax::{Declarator, EnumItem, Members, TypeName};

fn fits_int(value: i128) -> bool
    ensures { result ≡ is_int value }
{
    value > -2_147_483_649 && value < 2_147_483_648
}

// The value of an item, where the next one is this.
fn value(item: &EnumItem, next: i128) -> i128
    ensures { result ≡ item_value item.now.value next }
{
    item.value.unwrap_or(next)
}

// The value after one.
fn following(value: i32) -> i128
    ensures { result ≡ value +ℤ pos 1 }
{
    i128::from(value) + 1
}

// The value that an item is taken to have.
fn int(value: i128) -> i32
    ensures { result ≡ int_or_zero value }
{
    if fits_int(value) { value as i32 } else { 0 }
}

fn note_value(line: u32, value: i128, found: &mut Found)
    ensures { found.new ≡ noted (value_mistakes line value) found.old }
{
    if !fits_int(value) {
        found.note_not_scalar(line);
    }
}

/// Adds the items of an enum, of which the first has 0 where no value is written.
pub fn add_items(
    items: &[EnumItem],
    names: &mut Names<Global>,
    found: &mut Found,
) -> Result<(), AllocError>
    ensures names { OnOk result (names.new ≡ with_items (items_of items.now) (pos 0) names.old) }
    ensures found { OnOk result (found.new ≡ noted (item_mistakes (items_of items.now) (pos 0) names.old) found.old) }
{
    let mut next: i128 = 0;
    for item in items {
        let written = value(item, next);
        let taken = int(written);
        declare(&item.name, Global::Item(taken), names, found)?;
        note_value(item.line, written, found);
        next = following(taken);
    }
    Ok(())
}

// What a variable of a type is.
fn base(written: &TypeName, names: &Names<Global>) -> Base
    ensures { result ≡ base_of (written_of written.now) names.now }
{
    match written {
        TypeName::Basic(scalar) => Base::Single(*scalar),
        TypeName::Custom { line: _, name } => match names.meaning(name) {
            Some(Global::Struct(number)) => Base::Group(number),
            _ => Base::Single(Scalar::Int),
        },
    }
}

fn note_member_type(written: &TypeName, names: &Names<Global>, found: &mut Found)
    ensures { found.new ≡ noted (member_type_mistakes (written_of written.now) names.now) found.old }
{
    match written {
        TypeName::Basic(_) => {}
        TypeName::Custom { line, name } => match names.meaning(name) {
            Some(Global::Enum) => {}
            Some(Global::Struct(_)) => {}
            _ => found.note_unknown(*line),
        },
    }
}

fn lengths(written: &[u64]) -> Lengths
    ensures { result ≡ lengths_of written.now }
{
    if written.is_empty() {
        Lengths::Plain
    } else if written.len() == 1 {
        Lengths::One(written[0])
    } else {
        Lengths::Two(written[0], written[1])
    }
}

// Adds the variables of a declaration, each an array of this or one of it.
fn add_declarators(
    declarators: &[Declarator],
    base: Base,
    members: &mut Names<Member>,
    found: &mut Found,
) -> Result<(), AllocError>
    ensures members { OnOk result (members.new ≡ with_declarators (declarators_of declarators.now) base members.old) }
    ensures found { OnOk result (found.new ≡ noted
        (declarator_mistakes (declarators_of declarators.now) base members.old) found.old) }
{
    for declarator in declarators {
        let shape = Shape {
            lengths: lengths(declarator.lengths.as_slice()),
            base,
        };
        declare(&declarator.name, Member::Variable(shape), members, found)?;
    }
    Ok(())
}

/// Adds the variables of a declaration, where these names of the file are known.
pub fn add_members(
    written: &Members,
    names: &Names<Global>,
    members: &mut Names<Member>,
    found: &mut Found,
) -> Result<(), AllocError>
    ensures members { OnOk result (members.new ≡ with_members (members_of written.now) names.now members.old) }
    ensures found { OnOk result (found.new ≡ noted
        (members_mistakes (members_of written.now) names.now members.old) found.old) }
{
    note_member_type(&written.written, names, found);
    let base = base(&written.written, names);
    add_declarators(written.declarators.as_slice(), base, members, found)
}

/// Adds the variables of a struct, where these names of the file are known.
pub fn add_all_members(
    all: &[Members],
    names: &Names<Global>,
    members: &mut Names<Member>,
    found: &mut Found,
) -> Result<(), AllocError>
    ensures members { OnOk result (members.new ≡ with_all_members (all_members_of all.now) names.now members.old) }
    ensures found { OnOk result (found.new ≡ noted
        (all_members_mistakes (all_members_of all.now) names.now members.old) found.old) }
{
    for written in all {
        add_members(written, names, members, found)?;
    }
    Ok(())
}
