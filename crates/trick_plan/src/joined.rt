//! A program and the lines of an input, joined.

ghost use Rattle.trick_plan.specs.Plan.{IsPlan};

use std::alloc::Global;
use trick_input::Call;
use trick_lang::Program;
use trick_model::Plan;
use trick_plan_ending::end;
use trick_plan_lines::{JoinFault, draft};
use trick_plan_settings::settings_in;

/// The plan that the lines of an input make of a program, or the first refusal with its line. It takes time
/// as there are lines and jobs, and a sort of the jobs. The page RULES of the documents says what each line
/// says, and FORMATS has the refusals.
pub fn plan(alloc: Global, program: Program, calls: &[Call]) -> Result<Plan, JoinFault>
    ensures { IsPlan program calls.now result }
{
    let mut program = program;
    let settings = settings_in(alloc, &program, calls)?;
    let draft = draft(alloc, &mut program, &settings, calls)?;
    Ok(end(alloc, program, draft, settings)?)
}
