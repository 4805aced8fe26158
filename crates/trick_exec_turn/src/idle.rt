//! Turns in which nothing is done but that time passes.

ghost use Rattle.std.specs.Prelude.{◌≡◌, [], false, true};
ghost use Rattle.trick_model.specs.Plan.{threads_beside};
ghost use Rattle.trick_model.specs.PlanOf.{plan_of};
ghost use Rattle.trick_model.specs.State.{seen};
ghost use Rattle.trick_exec_frame.specs.Pass.{IsEquipped, passed, unasked};

use std::sync::ledger::Ledger;
use trick_exec_frame::{Equipment, pass_idle};
use trick_lang::Cells;
use trick_model::{Accepted, World};
use trick_post_work::Posts;

/// Passes a turn without entries in place, where no session is there and nothing is due in it; and tells whether it was
/// such a turn. Else it changes nothing. It costs next to nothing, and takes no memory.
pub fn idles<M: Cells, P: Posts, L: Ledger>(
    accepted: &Accepted,
    world: &mut World<M>,
    equipment: &mut Equipment<L>,
    posts: &P,
) -> bool
    requires equipped { IsEquipped accepted.now.plan equipment.old (P.in_flight posts.now)
        (seen M.numbers world.old.state) (M.scalars world.old.state.memory) }
    ensures no_session { result ≡ true → world.old.sessions.items ≡ [] }
    ensures sessions { world.new.sessions ≡ world.old.sessions }
    ensures alone { result ≡ true → threads_beside (plan_of accepted.now.plan) ≡ [] }
    ensures state { result ≡ true → seen M.numbers world.new.state
        ≡ (passed (plan_of accepted.now.plan) [] (unasked (seen M.numbers world.old.state))).state }
    ensures writes { result ≡ true
        → (passed (plan_of accepted.now.plan) [] (unasked (seen M.numbers world.old.state))).writes ≡ [] }
    ensures unchanged { result ≡ false → world.new ≡ world.old }
    ensures equipped { IsEquipped accepted.now.plan equipment.new (P.in_flight posts.now)
        (seen M.numbers world.new.state) (M.scalars world.new.state.memory) }
{
    if !world.sessions.is_empty() {
        return false;
    }
    pass_idle(accepted, &mut world.state, equipment, posts)
}
