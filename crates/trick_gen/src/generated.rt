//! Both texts.

ghost use Rattle.std.specs.Prelude.{◌≡◌, ◌++◌, IfOk, OnOk};
ghost use Rattle.trick_gen.specs.Texts.{classes_text, definition_text, input_text, objects_text};

use crate::class::push_class;
use crate::object::{CLASSES, push_object};
use std::alloc::{AllocError, Global};

/// The texts of a generated simulation.
#[derive(Debug, Drop)]
pub struct Generated {
    /// The simulation definition.
    pub definition: Vec<u8>,
    /// The input file.
    pub input: Vec<u8>,
}

// Appends all classes.
fn push_classes(text: &mut Vec<u8>) -> Result<(), AllocError>
    ensures { OnOk result (text.new.items ≡ text.old.items ++ classes_text 4) }
{
    for class in 0..CLASSES {
        push_class(text, class)?;
    }
    Ok(())
}

// Appends so many objects.
fn push_objects(text: &mut Vec<u8>, count: u32) -> Result<(), AllocError>
    ensures { OnOk result (text.new.items ≡ text.old.items ++ objects_text count) }
{
    for object in 0..count {
        push_object(text, object)?;
    }
    Ok(())
}

// The input file.
#[tactic(auto, unfolding(crate::specs::Texts::input_text))]
fn input() -> &'static [u8]
    ensures { result.now ≡ input_text }
{
    b"trick.exec_set_software_frame(0.0001)
g = trick.DRAscii(\"gen\")
g.set_cycle(0.0001)
g.add_variable(\"o0.c\")
trick.add_data_record_group(g)
trick.stop(0.000999)
"
}

/// The texts of a simulation with so many objects; `tricks gen` makes from 1 to 100. The objects are
/// of four classes in turn, and the jobs of each class are on a thread of their own. It runs 1,000
/// tics. Each object then has a = 1000, b = 250000 and c = 16516800, since each of its jobs reads and
/// writes the variables of that object alone, and the three run in one order. `docs/FORMATS.md` has
/// the texts. The only refusal is for want of memory.
pub fn make(alloc: Global, objects: u32) -> Result<Generated, AllocError>
    ensures definition { IfOk result (λ made. made.definition.items ≡ definition_text objects) }
    ensures input { IfOk result (λ made. made.input.items ≡ input_text) }
{
    let mut definition = Vec::new(alloc);
    push_classes(&mut definition)?;
    push_objects(&mut definition, objects)?;
    let mut text = Vec::new(alloc);
    text.extend_from_slice(input())?;
    Ok(Generated {
        definition,
        input: text,
    })
}
