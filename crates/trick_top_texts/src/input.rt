//! From an input to its lines.

ghost use Rattle.std.specs.Prelude.{Err, IfErr, IfOk, List, ℕ};
ghost use Rattle.trick_input.specs.Answers.{IsInput};
ghost use Rattle.trick_lang.specs.declared.program.Program.{Program};
ghost use Rattle.trick_top_texts.specs.Answers.{IsUnready};
ghost use Rattle.trick_top_texts.specs.Texts.{HasLines, HasProgram};

use crate::Unready;
use std::alloc::Global;
use trick_input::{Call, InputFault, read_input};
use trick_top_refusals::input_line;

// The refusal of an input by its reader.
fn unread(alloc: Global, fault: InputFault) -> Unready
    ensures { (s_define input : List ℕ) (program : Program) → HasProgram s_define program
        → IsInput input (Err fault) → IsUnready s_define input result }
{
    match fault {
        InputFault::OutOfMemory => Unready::OutOfMemory,
        fault => Unready::by_text(input_line(alloc, fault)),
    }
}

/// The lines of an input.
pub(crate) fn lines(alloc: Global, input: &[u8]) -> Result<Vec<Call>, Unready>
    ensures lines { IfOk result (λ calls. HasLines input.now calls.items) }
    ensures refused { IfErr result (λ unready. (s_define : List ℕ) (program : Program)
        → HasProgram s_define program → IsUnready s_define input.now unready) }
{
    match read_input(alloc, input) {
        Ok(calls) => Ok(calls),
        Err(fault) => Err(unread(alloc, fault)),
    }
}
