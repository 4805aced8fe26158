//! Turns in which nothing is done but that time passes.

ghost use Rattle.std.specs.Prelude.{◌≡◌, [], false, true};
ghost use Rattle.trick_eval.specs.Bench.{IsFor};
ghost use Rattle.trick_phase_jobs.specs.Belongs.{IsMemoryOf};
ghost use Rattle.trick_lang.specs.declared.class.Class.TheVariants.{EndOfFrame};
ghost use Rattle.trick_model.specs.Plan.{threads_beside};
ghost use Rattle.trick_model.specs.PlanOf.{plan_of};
ghost use Rattle.trick_model.specs.Running.{run_class as class_ran};
ghost use Rattle.trick_model.specs.State.{seen};
ghost use Rattle.trick_exec_frame.specs.Pass.{IsEquipped, passed, unasked};

use crate::Equipment;
use crate::rest::count;
use std::sync::ledger::Ledger;
use trick_eval::Bench;
use trick_exec_classes::{has_jobs, run_class};
use trick_exec_tic::skip;
use trick_lang::{Cells, Class};
use trick_model::{Accepted, Plan, State, laws};
use trick_post_work::Posts;

// Runs the end_of_frame jobs. It looks first whether there are some, which costs less than a call.
fn run_end_of_frame<M: Cells>(plan: &Plan, state: &mut State<M>, bench: &mut Bench)
    requires bench { IsFor plan.now.program bench.old.parts }
    requires memory { IsMemoryOf plan.now.program (M.numbers state.old.memory) (M.scalars state.old.memory) }
    ensures ran { seen M.numbers state.new ≡ class_ran (plan_of plan.now) EndOfFrame (seen M.numbers state.old) }
    ensures memory { IsMemoryOf plan.now.program (M.numbers state.new.memory) (M.scalars state.new.memory) }
    ensures bench { bench.new.parts ≡ bench.old.parts }
{
    if has_jobs(plan, Class::EndOfFrame) {
        run_class(plan, Class::EndOfFrame, state, bench);
    }
}

/// Passes a turn without entries in place, where nothing is due at its tics, the plan has no jobs at the top
/// of a frame, and no thread works beside the tics; and tells whether it was such a turn. Else it changes
/// nothing. It costs next to nothing, and takes no memory.
pub fn pass_idle<M: Cells, P: Posts, L: Ledger>(
    accepted: &Accepted,
    state: &mut State<M>,
    equipment: &mut Equipment<L>,
    posts: &P,
) -> bool
    requires equipped { IsEquipped accepted.now.plan equipment.old (P.in_flight posts.now) (seen M.numbers state.old)
        (M.scalars state.old.memory) }
    ensures state { result ≡ true → seen M.numbers state.new
        ≡ (passed (plan_of accepted.now.plan) [] (unasked (seen M.numbers state.old))).state }
    ensures writes { result ≡ true → (passed (plan_of accepted.now.plan) [] (unasked (seen M.numbers state.old))).writes
        ≡ [] }
    ensures alone { result ≡ true → threads_beside (plan_of accepted.now.plan) ≡ [] }
    ensures unchanged { result ≡ false → state.new ≡ state.old }
    ensures equipped { IsEquipped accepted.now.plan equipment.new (P.in_flight posts.now) (seen M.numbers state.new)
        (M.scalars state.new.memory) }
{
    laws::plans_are_sound();
    let plan = accepted.plan();
    if !equipment.course.stations().is_empty() || has_jobs(plan, Class::TopOfFrame) {
        return false;
    }
    if !state.runs() || !skip(plan, &equipment.course, state) {
        return false;
    }
    run_end_of_frame(plan, state, &mut equipment.bench);
    count(state);
    true
}
