//! The methods of a class.

ghost use Rattle.std.specs.Prelude.{◌≡◌, ◌+◌, IfOk, OnOk, Some, length, slice_get};
ghost use Rattle.trick_check_blocks.specs.Bodies.{with_bodies};
ghost use Rattle.trick_check_blocks.specs.Codes.{all_count};
ghost use Rattle.trick_check_blocks.specs.Held.{bodies_of};
ghost use Rattle.trick_check_blocks.specs.Methods.{body_blocks, progress, with_method, with_part, with_parts};
ghost use Rattle.trick_check_blocks.specs.Room.{IsLaid};
ghost use Rattle.trick_lang.specs.Syntax.{class_part_of, class_parts_of, method_of, statements_of_list};

use crate::block::count_of;
use crate::scope::ClassScope;
use crate::slots::slots_of_blocks;
use crate::statement::add_statements;
use std::alloc::{AllocError, Global};
use trick_check_names::Names;
use trick_lang::Block;
use trick_lang::syntax::{ClassPart, Method, Stmt};

// The body of a method, with the blocks in it, and its number.
fn add_body(
    alloc: Global,
    body: &[Stmt],
    scope: &ClassScope,
    blocks: &mut Vec<Block>,
) -> Result<u32, AllocError>
    requires laid { IsLaid scope.now }
    ensures number { IfOk result (λ number. number
        ≡ length blocks.old.items + all_count (statements_of_list body.now)) }
    ensures blocks { OnOk result (bodies_of blocks.new.items ≡ with_bodies scope.now.class
        (body_blocks (statements_of_list body.now) scope.now (length blocks.old.items)) (bodies_of blocks.old.items)) }
    ensures length { OnOk result (length blocks.new.items
        ≡ length blocks.old.items + (all_count (statements_of_list body.now) + 1)) }
{
    let mut locals = Names::new(alloc);
    add_statements(alloc, body, scope, &mut locals, blocks)
}

fn resolve_method(
    alloc: Global,
    method: &Method,
    scope: &mut ClassScope,
    blocks: &mut Vec<Block>,
) -> Result<(), AllocError>
    requires laid { IsLaid scope.old }
    ensures { OnOk result (progress scope.new (bodies_of blocks.new.items)
        ≡ with_method (method_of method.now) (progress scope.old (bodies_of blocks.old.items))) }
{
    let first = count_of(blocks);
    let number = add_body(alloc, method.body.as_slice(), scope, blocks)?;
    let slots = slots_of_blocks(&blocks[first..], scope.slots)?;
    scope.methods.add(&method.name, number)?;
    scope.slots = slots;
    Ok(())
}

fn resolve_part(
    alloc: Global,
    part: &ClassPart,
    scope: &mut ClassScope,
    blocks: &mut Vec<Block>,
) -> Result<(), AllocError>
    requires laid { IsLaid scope.old }
    ensures { OnOk result (progress scope.new (bodies_of blocks.new.items)
        ≡ with_part (Some (class_part_of part.now)) (progress scope.old (bodies_of blocks.old.items))) }
{
    match part {
        ClassPart::Method(method) => resolve_method(alloc, method, scope, blocks),
        ClassPart::Public => Ok(()),
        ClassPart::Members(_) => Ok(()),
        ClassPart::Constructor {
            line: _,
            name: _,
            jobs: _,
        } => Ok(()),
    }
}

fn resolve_part_at(
    alloc: Global,
    parts: &[ClassPart],
    number: usize,
    scope: &mut ClassScope,
    blocks: &mut Vec<Block>,
) -> Result<(), AllocError>
    requires laid { IsLaid scope.old }
    ensures { OnOk result (progress scope.new (bodies_of blocks.new.items)
        ≡ with_part (slice_get (class_parts_of parts.now) number) (progress scope.old (bodies_of blocks.old.items))) }
{
    if number >= parts.len() {
        return Ok(());
    }
    resolve_part(alloc, &parts[number], scope, blocks)
}

/// Makes the methods of a class, whose parts are taken in this order, by their numbers: after it
/// `scope` tells the block of each method, and how many slots there are so far.
pub fn resolve_class(
    alloc: Global,
    parts: &[ClassPart],
    order: &[usize],
    scope: &mut ClassScope,
    blocks: &mut Vec<Block>,
) -> Result<(), AllocError>
    requires laid { IsLaid scope.old }
    ensures { OnOk result (progress scope.new (bodies_of blocks.new.items)
        ≡ with_parts order.now (class_parts_of parts.now) (progress scope.old (bodies_of blocks.old.items))) }
{
    for number in order {
        resolve_part_at(alloc, parts, *number, scope, blocks)?;
    }
    Ok(())
}
