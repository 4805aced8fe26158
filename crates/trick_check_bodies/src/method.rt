//! The methods of a class, in the program.

ghost use Rattle.std.specs.Prelude.{◌≡◌, ◌++◌, ◌∷◌, [], IfOk, OnOk};
ghost use Rattle.trick_check_bodies.specs.Methods.{class_methods, part_methods, with_numbers};
ghost use Rattle.trick_lang.specs.Syntax.{class_part_of, class_parts_of};

use std::alloc::{AllocError, Global as Memory};
use trick_base::Items;
use trick_check_names::Names;
use trick_lang::Method;
use trick_lang::syntax::ClassPart;

fn add_part(
    class: u32,
    part: &ClassPart,
    blocks: &Names<u32>,
    methods: &mut Items<Method>,
) -> Result<(), AllocError>
    ensures { OnOk result (methods.new ≡ methods.old ++ part_methods class blocks.now (class_part_of part.now)) }
{
    if let ClassPart::Method(method) = part {
        let block = blocks.meaning(&method.name).unwrap_or(0);
        methods.push(Method {
            name: method.name.try_clone()?,
            class,
            block,
        })?;
    }
    Ok(())
}

/// Adds the methods of a class, where these are the blocks of their bodies.
pub fn add_methods(
    class: u32,
    parts: &[ClassPart],
    blocks: &Names<u32>,
    methods: &mut Items<Method>,
) -> Result<(), AllocError>
    ensures { OnOk result (methods.new ≡ methods.old ++ class_methods class blocks.now (class_parts_of parts.now)) }
{
    for part in parts {
        add_part(class, part, blocks, methods)?;
    }
    Ok(())
}

// Gives a method the next number, and tells the number after it.
fn add_number(next: u32, part: &ClassPart, numbers: &mut Names<u32>) -> Result<u32, AllocError>
    ensures { IfOk result (λ behind. (rest : _) → with_numbers next (class_part_of part.now ∷ rest) numbers.old
        ≡ with_numbers behind rest numbers.new) }
{
    match part {
        ClassPart::Public => Ok(next),
        ClassPart::Members(_) => Ok(next),
        ClassPart::Method(method) => {
            numbers.add(&method.name, next)?;
            next.checked_add(1).ok_or(AllocError)
        }
        ClassPart::Constructor {
            line: _,
            name: _,
            jobs: _,
        } => Ok(next),
    }
}

/// The numbers of a class' methods in the program, where the first has that number.
pub fn numbers(alloc: Memory, first: u32, parts: &[ClassPart]) -> Result<Names<u32>, AllocError>
    ensures { IfOk result (λ numbers. numbers ≡ with_numbers first (class_parts_of parts.now) []) }
{
    let mut numbers = Names::new(alloc);
    let mut next = first;
    for part in parts {
        next = add_number(next, part, &mut numbers)?;
    }
    Ok(numbers)
}
