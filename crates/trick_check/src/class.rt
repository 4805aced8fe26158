//! The parts of the classes of a file.

ghost use Rattle.std.specs.Prelude.{◌≡◌, IfOk, Some, slice_get};
ghost use Rattle.trick_check.specs.Parts.{method_name, parts_at, parts_in};
ghost use Rattle.trick_lang.specs.Syntax.{class_part_of, class_parts_of, definition_of, definitions_of};

use std::alloc::{AllocError, Global as Memory};
use trick_base::Word;
use trick_lang::syntax::{ClassPart, Definition};

// The parts of a class; another definition has none.
fn parts_in(definition: &Definition) -> &[ClassPart]
    ensures { class_parts_of result.now ≡ parts_in (definition_of definition.now) }
{
    match definition {
        Definition::Class { name: _, parts } => parts.as_slice(),
        Definition::Include => &[],
        Definition::Enum { name: _, items: _ } => &[],
        Definition::Struct {
            name: _,
            members: _,
        } => &[],
        Definition::Object {
            line: _,
            class: _,
            name: _,
        } => &[],
    }
}

/// The parts of the class of that number.
pub fn parts_at(definitions: &[Definition], class: usize) -> &[ClassPart]
    ensures { class_parts_of result.now ≡ parts_at (definitions_of definitions.now) class }
{
    if class >= definitions.len() {
        return &[];
    }
    parts_in(&definitions[class])
}

// The name of a method; what is no method has none.
fn name_of(alloc: Memory, part: &ClassPart) -> Result<Word, AllocError>
    ensures { IfOk result (λ name. name ≡ method_name (Some (class_part_of part.now))) }
{
    match part {
        ClassPart::Method(method) => method.name.try_clone(),
        ClassPart::Public => Ok(Word::new(alloc)),
        ClassPart::Members(_) => Ok(Word::new(alloc)),
        ClassPart::Constructor {
            line: _,
            name: _,
            jobs: _,
        } => Ok(Word::new(alloc)),
    }
}

/// The name of the method of that number.
pub fn method_name(alloc: Memory, parts: &[ClassPart], number: usize) -> Result<Word, AllocError>
    ensures { IfOk result (λ name. name ≡ method_name (slice_get (class_parts_of parts.now) number)) }
{
    if number >= parts.len() {
        return Ok(Word::new(alloc));
    }
    name_of(alloc, &parts[number])
}
