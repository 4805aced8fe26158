//! One turn.

ghost use Rattle.std.specs.Prelude.{◌≡◌, IfOk, length};
ghost use Rattle.trick_exec_turn.specs.CameTo.{CameTo, HasGiven};
ghost use Rattle.trick_exec_turn.specs.Known.{AreKnown};
ghost use Rattle.trick_exec_turn.specs.Lent.{IsReady, IsSame, place};
ghost use Rattle.trick_exec_turn.specs.Worlds.{world_of};
ghost use Rattle.trick_model.specs.Plan.{threads_beside};
ghost use Rattle.trick_model.specs.PlanOf.{plan_of};
ghost use Rattle.trick_model.specs.State.{seen};
ghost use Rattle.trick_exec_meaning.specs.Hosts.{hosts};

use crate::lent::Run;
use crate::lines::{count_lines, hear_lines};
use crate::publish::{choose_publications, decided, note_publications};
use std::sync::ledger::Ledger;
use trick_event::Asked;
use trick_exec_entries::Hearing;
use trick_exec_sources::Turns;
use trick_exec_tic::Current;
use trick_lang::Cells;
use trick_model::{Accepted, Entry, World, laws};
use trick_outside::{Shelf, Stop};
use trick_phase_jobs::Phases;
use trick_post_work::Posts;

/// What the source of a run gives for a turn: its entries, and whether these decide the publications.
#[derive(Clone, Copy)]
pub struct Given<'a> {
    pub entries: &'a [Entry],
    pub decides: bool,
}

impl<'a, F: Shelf, H, P: Posts, T, L: Ledger> Run<'a, F, H, P, T, L> {
    /// A turn that was given these entries: its lines are noted and heard, its publications are chosen, where
    /// its source does not decide them, and noted, and then the turn takes its course. No message is handed over
    /// before all entries are noted. It stops where the shelf failed, or where there was no memory; the world is
    /// gone then.
    pub fn turn<M: Cells + Drop>(
        &mut self,
        accepted: &Accepted,
        given: Given,
        world: World<M>,
    ) -> Result<World<M>, Stop>
    where
        H: Phases<M>,
        T: Turns<M>,
        requires ready { IsReady H.Phases P.Posts accepted.now.plan self.old (seen M.numbers world.state)
            (M.scalars world.state.memory) }
        requires waits { length self.old.waits.now.items ≡ length (threads_beside (plan_of accepted.now.plan)) }
        requires given { HasGiven (plan_of accepted.now.plan) given.decides (world_of M.numbers world)
            given.entries.now (T.sessions self.old.turns.now) }
        ensures same { IsSame self.old self.new }
        ensures came_to { CameTo (hosts F.Shelf T.Turns P.Posts) M.numbers (plan_of accepted.now.plan)
            given.entry.decides (world_of M.numbers world) given.entry.entries.now self.old.waits.now.items
            self.new.waits.now.items (place self.old) (place self.new) result }
        ensures known { IfOk result (λ after. AreKnown (plan_of accepted.now.plan)
            (T.sessions self.new.turns.now) after.sessions.items) }
        ensures ready { IfOk result (λ after. IsReady H.Phases P.Posts accepted.now.plan self.new
            (seen M.numbers after.state) (M.scalars after.state.memory)) }
        ensures waits { IfOk result (λ after. length self.new.waits.now.items
            ≡ length (threads_beside (plan_of accepted.now.plan))) }
    {
        laws::plans_are_sound();
        laws::runs_join();
        let Given { entries, decides } = given;
        let number = world.state.turn;
        let (lines, tail) = entries.split_at(count_lines(entries));
        let asked = Asked {
            freeze: false,
            checkpoint: false,
        };
        let mut hearing = Hearing {
            current: Current {
                state: world.state,
                asked,
            },
            sessions: world.sessions,
        };
        let replies = hear_lines(accepted, lines, &mut hearing, self.equipment, self.shelf)?;
        let state = &hearing.current.state;
        let course = &self.equipment.course;
        let Ok(chosen) = choose_publications(
            decides,
            course,
            state,
            self.waits.as_mut_slice(),
            &mut self.workers.posts,
        ) else {
            return Err(Stop::Memory);
        };
        let publications = decided(decides, tail, &chosen);
        note_publications(number, publications, course, state, self.shelf)?;
        self.finish(accepted, hearing, &replies, publications)
    }
}
