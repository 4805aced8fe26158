//! What is made of the classes of a file, one after another.

ghost use Rattle.std.specs.Prelude.{◌≡◌, ◌<◌, ◌==◌, ◌||◌, ℕ, [], Bool, true, false, IfOk, OnOk, length, slice_index_or};
ghost use Rattle.trick_check_bodies.specs.Classes.{AreWhole, made};
ghost use Rattle.trick_check.specs.Parts.{AreOrders, order_at, parts_at};
ghost use Rattle.trick_check.specs.Walk.{SizesFit, file_layout, has_object, made_of_first, nothing_made, with_class_if};
ghost use Rattle.trick_lang.specs.Syntax.{definitions_of};
ghost use Rattle.trick_check_names.specs.Kept.{AreLaid};

use crate::class::parts_at;
use std::alloc::{AllocError, Global as Memory};
use trick_base::Items;
use trick_check_blocks::{ClassScope, laws};
use trick_check_bodies::{Bodies, add_class};
use trick_check_names::{Layout, Names};
use trick_lang::Object;
use trick_lang::syntax::Definition;

// What the classes of a file are made by: for each definition the order of its parts, and whether it is
// a class that has objects.
#[derive(Clone, Copy)]
struct Classes<'a> {
    definitions: &'a [Definition],
    orders: &'a [Items<usize>],
    used: &'a [bool],
}

// Marks a class that has an object.
fn mark(class: u32, used: &mut Vec<bool>)
    ensures many { length used.new.items ≡ length used.old.items }
    ensures marked { (k : ℕ) (rest : Bool) → k < length used.old.items →
        (slice_index_or used.new.items k false || rest)
        ≡ (slice_index_or used.old.items k false || ((class == k) || rest)) }
{
    let place = class as usize;
    if place >= used.len() {
        return;
    }
    used[place] = true;
}

// For each of so many definitions whether it is a class that has objects.
fn used_classes(alloc: Memory, count: usize, objects: &[Object]) -> Result<Vec<bool>, AllocError>
    ensures many { IfOk result (λ used. length used.items ≡ count) }
    ensures used { IfOk result (λ used. (k : ℕ) → k < count →
        slice_index_or used.items k false ≡ has_object objects.now k) }
{
    let mut used = vec![in alloc; false; count]?;
    for object in objects {
        mark(object.class, &mut used);
    }
    Ok(used)
}

// Nothing is made yet.
fn nothing(alloc: Memory, layout: Layout) -> Bodies
    ensures made { made result ≡ nothing_made layout }
    ensures whole { AreWhole (made result) }
{
    laws::start_law();
    Bodies {
        scope: ClassScope {
            layout,
            class: 0,
            methods: Names::new(alloc),
            slots: 0,
        },
        blocks: Vec::new(alloc),
        methods: Items::new(alloc),
        numbers: Items::new(alloc),
    }
}

// A definition of which nothing is made.
fn pass(alloc: Memory, bodies: &mut Bodies) -> Result<(), AllocError>
    requires whole { AreWhole (made bodies.old) }
    ensures made { OnOk result (made bodies.new ≡ with_class_if false 0 [] [] (made bodies.old)) }
    ensures whole { OnOk result (AreWhole (made bodies.new)) }
{
    bodies.numbers.push(Names::new(alloc))?;
    Ok(())
}

// A number of 32 bits.
fn small(number: usize) -> Result<u32, AllocError>
    ensures { IfOk result (λ small. small ≡ number) }
{
    u32::try_from(number).map_err(|_| AllocError)
}

// Makes the methods of a class that has objects.
fn add_used(
    alloc: Memory,
    classes: Classes,
    class: usize,
    bodies: &mut Bodies,
) -> Result<(), AllocError>
    requires here { class < length classes.definitions.now }
    requires orders { length classes.orders.now ≡ length classes.definitions.now }
    requires ordered { AreOrders (definitions_of classes.definitions.now) classes.orders.now }
    requires laid { AreLaid bodies.old.scope.layout }
    requires sizes { SizesFit bodies.old.scope.layout }
    requires whole { AreWhole (made bodies.old) }
    ensures made { OnOk result (made bodies.new ≡ with_class_if true class
        (order_at (definitions_of classes.entry.definitions.now) class)
        (parts_at (definitions_of classes.entry.definitions.now) class) (made bodies.old)) }
    ensures whole { OnOk result (AreWhole (made bodies.new)) }
{
    let number = small(class)?;
    let parts = parts_at(classes.definitions, class);
    let orders = classes.orders;
    add_class(alloc, number, parts, orders[class].as_slice(), bodies)
}

// Makes the methods of a definition, where it is a class that has objects.
fn add_definition(
    alloc: Memory,
    classes: Classes,
    class: usize,
    bodies: &mut Bodies,
) -> Result<(), AllocError>
    requires here { class < length classes.definitions.now }
    requires orders { length classes.orders.now ≡ length classes.definitions.now }
    requires used { length classes.used.now ≡ length classes.definitions.now }
    requires ordered { AreOrders (definitions_of classes.definitions.now) classes.orders.now }
    requires laid { AreLaid bodies.old.scope.layout }
    requires sizes { SizesFit bodies.old.scope.layout }
    requires whole { AreWhole (made bodies.old) }
    ensures made { OnOk result (made bodies.new ≡ with_class_if
        (slice_index_or classes.entry.used.now class false) class
        (order_at (definitions_of classes.entry.definitions.now) class)
        (parts_at (definitions_of classes.entry.definitions.now) class) (made bodies.old)) }
    ensures whole { OnOk result (AreWhole (made bodies.new)) }
{
    let used = classes.used;
    let is_used = used[class];
    if is_used {
        return add_used(alloc, classes, class, bodies);
    }
    pass(alloc, bodies)
}

/// What is made of all classes that have objects, where these are the objects.
pub fn make_classes(
    alloc: Memory,
    definitions: &[Definition],
    orders: &[Items<usize>],
    objects: &[Object],
    layout: Layout,
) -> Result<Bodies, AllocError>
    requires many { length orders.now ≡ length definitions.now }
    requires ordered { AreOrders (definitions_of definitions.now) orders.now }
    requires layout { layout ≡ file_layout (definitions_of definitions.now) }
    requires laid { AreLaid layout }
    ensures made { IfOk result (λ bodies. made bodies
        ≡ made_of_first (definitions_of definitions.now) objects.now (length definitions.now)) }
    ensures whole { IfOk result (λ bodies. AreWhole (made bodies)) }
{
    let marks = used_classes(alloc, definitions.len(), objects)?;
    let used = marks.as_slice();
    let classes = Classes {
        definitions,
        orders,
        used,
    };
    let mut bodies = nothing(alloc, layout);
    for class in 0..definitions.len() {
        add_definition(alloc, classes, class, &mut bodies)?;
    }
    Ok(bodies)
}
