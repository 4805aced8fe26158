//! From two texts to the plan that is accepted.

ghost use Rattle.std.specs.Prelude.{IfErr, IfOk};
ghost use Rattle.trick_top_texts.specs.Answers.{IsUnready};
ghost use Rattle.trick_top_texts.specs.Texts.{HavePlan, IsReady};

use crate::Unready;
use crate::input::lines;
use crate::plan::{accept, join};
use crate::s_define::program;
use std::alloc::Global;
use trick_model::{Accepted, Plan};

// The plan of two texts.
fn planned(alloc: Global, s_define: &[u8], input: &[u8]) -> Result<Plan, Unready>
    ensures plan { IfOk result (HavePlan s_define.now input.now) }
    ensures refused { IfErr result (IsUnready s_define.now input.now) }
{
    let program = program(alloc, s_define)?;
    let calls = lines(alloc, input)?;
    join(alloc, program, &calls)
}

/// The accepted plan of an S_define and an input, or the printed line of the first step that refuses: the
/// S_define is read and its names are looked up, then the input is read, then both are joined to a plan, and
/// the plan is judged. A want of memory may come at each step. The page FORMATS of the documents has the
/// refusals. It takes the time of the readers, and that of [`trick_race::judge`].
pub fn ready(alloc: Global, s_define: &[u8], input: &[u8]) -> Result<Accepted, Unready>
    ensures ready { IfOk result (λ accepted. IsReady s_define.now input.now accepted.plan) }
    ensures refused { IfErr result (IsUnready s_define.now input.now) }
{
    let plan = planned(alloc, s_define, input)?;
    accept(alloc, plan)
}
