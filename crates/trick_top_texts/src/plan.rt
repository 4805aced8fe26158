//! From a program and the lines of an input to a plan that is accepted.

ghost use Rattle.std.specs.Prelude.{◌≡◌, Err, IfErr, IfOk, List, Ok, OnOk, ℕ};
ghost use Rattle.trick_input.specs.declared.call.Call.{Call};
ghost use Rattle.trick_lang.specs.declared.program.Program.{Program};
ghost use Rattle.trick_model.specs.PlanOf.{plan_of};
ghost use Rattle.trick_plan.specs.Plan.{IsPlan};
ghost use Rattle.trick_race.specs.Refusals.{HoldsBefore, NamesFirst};
ghost use Rattle.trick_top_texts.specs.Answers.{IsUnready};
ghost use Rattle.trick_top_texts.specs.Texts.{HasLines, HasProgram, HavePlan, IsReady};

use crate::Unready;
use std::alloc::Global;
use trick_input::Call;
use trick_lang::Program;
use trick_model::{Accepted, Candidate, Plan};
use trick_plan::{JoinFault, plan};
use trick_race::{PlanFault, judge};
use trick_top_refusals::{join_line, plan_line};

// The refusal of a program and lines that have no plan.
fn unjoined(alloc: Global, fault: JoinFault) -> Unready
    ensures { (s_define input : List ℕ) (program : Program) (calls : List Call) → HasProgram s_define program
        → HasLines input calls → IsPlan program calls (Err fault) → IsUnready s_define input result }
{
    match fault {
        JoinFault::OutOfMemory => Unready::OutOfMemory,
        fault => Unready::by_text(join_line(alloc, fault)),
    }
}

/// The plan of a program and of the lines of an input.
pub(crate) fn join(alloc: Global, program: Program, calls: &[Call]) -> Result<Plan, Unready>
    ensures plan { IfOk result (λ plan. IsPlan program calls.now (Ok plan)) }
    ensures refused { IfErr result (λ unready. (s_define input : List ℕ) → HasProgram s_define program
        → HasLines input calls.now → IsUnready s_define input unready) }
{
    match plan(alloc, program, calls) {
        Ok(plan) => Ok(plan),
        Err(fault) => Err(unjoined(alloc, fault)),
    }
}

// The refusal of a plan that is not accepted.
fn unaccepted(alloc: Global, plan: &Plan, fault: PlanFault) -> Unready
    requires before { HoldsBefore (plan_of plan.now) fault }
    requires first { NamesFirst (plan_of plan.now) fault }
    ensures { (s_define input : List ℕ) → HavePlan s_define input plan.now → IsUnready s_define input result }
{
    match fault {
        PlanFault::OutOfMemory => Unready::OutOfMemory,
        fault => Unready::by_plan(plan_line(alloc, plan, fault)),
    }
}

/// The plan, if it is accepted.
pub(crate) fn accept(alloc: Global, plan: Plan) -> Result<Accepted, Unready>
    ensures accepted { (s_define input : List ℕ) → HavePlan s_define input plan
        → IfOk result (λ accepted. IsReady s_define input accepted.plan) }
    ensures refused { (s_define input : List ℕ) → HavePlan s_define input plan
        → IfErr result (IsUnready s_define input) }
{
    let Ok(candidate) = Candidate::of(alloc, plan) else {
        return Err(Unready::OutOfMemory);
    };
    match judge(alloc, &candidate) {
        Ok(()) => Ok(Accepted::of(candidate)),
        Err(fault) => Err(unaccepted(alloc, candidate.plan(), fault)),
    }
}
