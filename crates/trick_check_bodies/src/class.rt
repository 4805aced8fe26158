ghost use Rattle.std.specs.Prelude.{◌≡◌, ◌≤◌, ◌<◌, ℕ, [], IfOk, IsTrue, OnOk, length};
ghost use Rattle.trick_check_blocks.specs.Room.{IsLaid};
ghost use Rattle.trick_check_blocks.specs.Kept.{is_one_of};
ghost use Rattle.trick_check_bodies.specs.Classes.{AreWhole, made, with_class};
ghost use Rattle.trick_lang.specs.Syntax.{class_parts_of};
ghost use Rattle.trick_check_names.specs.Kept.{AreLaid};
ghost use Rattle.trick_check_names.specs.Laid.{size_at};

use crate::{add_methods, numbers};
use std::alloc::{AllocError, Global as Memory};
use trick_base::Items;
use trick_check_blocks::{ClassScope, resolve_class};
use trick_check_names::Names;
use trick_lang::syntax::ClassPart;
use trick_lang::{Block, Method};

// So many methods fit their numbers.
const METHOD_LIMIT: usize = 1_000_000_000;

/// What is made of the classes so far.
#[derive(Drop)]
pub struct Bodies {
    /// What the bodies of the class see; its `slots` are those of all methods so far.
    pub scope: ClassScope,
    pub blocks: Vec<Block>,
    pub methods: Items<Method>,
    /// For each class so far the numbers of its methods in `methods`.
    pub numbers: Items<Names<u32>>,
}

// The next class, none of whose methods is made.
fn enter(alloc: Memory, class: u32, scope: &mut ClassScope)
    requires tables { AreLaid scope.old.layout }
    requires home { size_at scope.old.layout.sizes class ≤ 65536 }
    ensures scope { scope.new ≡ record scope.old { class = class; methods = [] } }
    ensures laid { IsLaid scope.new }
{
    scope.class = class;
    scope.methods = Names::new(alloc);
}

fn count_of(methods: &Items<Method>) -> Result<u32, AllocError>
    ensures { IfOk result (λ count. count ≡ length methods.now) }
{
    let count = methods.len();
    if count > METHOD_LIMIT {
        return Err(AllocError);
    }
    Ok(count as u32)
}

/// Makes the methods of a class, whose parts stand in an order in which each comes after those that
/// it calls.
pub fn add_class(
    alloc: Memory,
    class: u32,
    parts: &[ClassPart],
    order: &[usize],
    bodies: &mut Bodies,
) -> Result<(), AllocError>
    requires tables { AreLaid bodies.old.scope.layout }
    requires home { size_at bodies.old.scope.layout.sizes class ≤ 65536 }
    requires order { (k : ℕ) → k < length parts.now → IsTrue (is_one_of order.now k) }
    requires whole { AreWhole (made bodies.old) }
    ensures made { OnOk result (made bodies.new
        ≡ with_class class order.now (class_parts_of parts.now) (made bodies.old)) }
    ensures whole { OnOk result (AreWhole (made bodies.new)) }
{
    enter(alloc, class, &mut bodies.scope);
    resolve_class(alloc, parts, order, &mut bodies.scope, &mut bodies.blocks)?;
    let first = count_of(&bodies.methods)?;
    add_methods(class, parts, &bodies.scope.methods, &mut bodies.methods)?;
    let own = numbers(alloc, first, parts)?;
    bodies.numbers.push(own)?;
    Ok(())
}
