//! A generated simulation: its two texts are made and written, and then run.

ghost use Rattle.std.specs.Prelude.{◌≡◌, IfOk};
ghost use Rattle.trick_gen.specs.Texts.{definition_text, input_text};
ghost use Rattle.trick_model.specs.Turn.{file_writes};
ghost use Rattle.trick_outside.specs.Does.{Does};
ghost use Rattle.trick_exec_tic.specs.Steps.{steps_of};
ghost use Rattle.trick_top_alone.specs.Generated.{both_writes, text_steps};
ghost use Rattle.trick_top_alone.specs.Outcome.{HasGone};
ghost use Rattle.trick_top_alone.specs.Verdict.{verdict_of, with_objects as with_objects_of};
ghost use Rattle.trick_top_alone.specs.Words.{Asked};
ghost use Rattle.trick_top_words.specs.declared.command.Command.TheVariants as commands;

use crate::sources::Sources;
use crate::texts::perform_on;
use crate::verdict::Verdict;
use std::alloc::Global;
use trick_base::Word;
use trick_gen::{Generated, make};
use trick_outside::{Shelf, Stop, write_file};
use trick_top_words::Task;

/// The name of the S_define.
const DEFINITION_NAME: &[u8] = b"gen.S_define";

/// The name of the input.
const INPUT_NAME: &[u8] = b"gen_input.py";

/// Writes one text.
fn write_text<F: Shelf>(alloc: Global, name: &[u8], text: &[u8], shelf: &mut F) -> Result<(), Stop>
    ensures { Does F.Shelf shelf.old shelf.new result (steps_of (file_writes name.now text.now)) }
{
    let Ok(name) = Word::from_bytes(alloc, name) else {
        return Err(Stop::Memory);
    };
    write_file(shelf, &name, text)
}

/// Writes both texts.
fn write_both<F: Shelf>(
    alloc: Global,
    definition: &[u8],
    input: &[u8],
    shelf: &mut F,
) -> Result<(), Stop>
    ensures { Does F.Shelf shelf.old shelf.new result (steps_of (both_writes definition.now input.now)) }
{
    write_text(alloc, DEFINITION_NAME, definition, shelf)?;
    write_text(alloc, INPUT_NAME, input, shelf)
}

/// Makes both texts and writes them.
fn write_texts<F: Shelf>(alloc: Global, objects: u32, shelf: &mut F) -> Result<Generated, Stop>
    ensures written { Does F.Shelf shelf.old shelf.new result (text_steps objects) }
    ensures definition { IfOk result (λ texts. texts.definition.items ≡ definition_text objects) }
    ensures input { IfOk result (λ texts. texts.input.items ≡ input_text) }
{
    let Ok(texts) = make(alloc, objects) else {
        return Err(Stop::Memory);
    };
    write_both(alloc, &texts.definition, &texts.input, shelf)?;
    Ok(texts)
}

/// The verdict on the run of a generated simulation: where it came to its end, it is told with the
/// number of its objects.
fn with_objects(objects: u32, verdict: Verdict<'static>) -> Verdict<'static>
    ensures { verdict_of result ≡ with_objects_of objects (verdict_of verdict.entry) }
{
    match verdict {
        Verdict::Ended { ended, sessions } => Verdict::Generated {
            objects,
            ended,
            sessions,
        },
        other => other,
    }
}

/// Writes the texts of a simulation with so many objects, and runs them as `serial` does.
pub(crate) fn run_generated<F: Shelf>(
    alloc: Global,
    objects: u32,
    shelf: &mut F,
) -> Verdict<'static>
    ensures { HasGone F.Shelf shelf.old shelf.new (Asked (commands.Gen objects)) (verdict_of result) }
{
    match write_texts(alloc, objects, shelf) {
        Ok(texts) => {
            let given = Sources {
                s_define: &texts.definition,
                input: &texts.input,
                from: None,
                journal: None,
            };
            let verdict = perform_on(alloc, &Task::Serial, given, shelf);
            with_objects(objects, verdict)
        }
        Err(Stop::Shelf) => Verdict::ShelfFault,
        Err(Stop::Memory) => Verdict::OutOfMemory,
    }
}
