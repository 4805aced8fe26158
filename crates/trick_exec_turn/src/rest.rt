//! The rest of a turn, after its notes: its replies, its frame, and its samples.

ghost use Rattle.std.specs.Prelude.{◌≡◌, ◌++◌, [], All, IfOk, IsTrue, length};
ghost use Rattle.trick_exec_posts.specs.Flight.{AsksNothing};
ghost use Rattle.trick_exec_turn.specs.Lent.{IsReady, IsSame};
ghost use Rattle.trick_exec_entries.specs.Hearing.{said_of};
ghost use Rattle.trick_exec_entries.specs.Sessions.{AreHeard, numbers_of};
ghost use Rattle.trick_model.specs.PlanOf.{plan_of};
ghost use Rattle.trick_model.specs.Session.{Message as MessageOf, samples as samples_of, staying};
ghost use Rattle.trick_model.specs.State.{seen};
ghost use Rattle.trick_outside.specs.Does.{Does};
ghost use Rattle.trick_exec_meaning.specs.Answers.{Says};
ghost use Rattle.trick_exec_meaning.specs.Parts.{state_after, writes_after};
ghost use Rattle.trick_session.specs.Kept.{IsSession};
ghost use Rattle.trick_exec_tic.specs.Current.{asking_of};
ghost use Rattle.trick_exec_tic.specs.Steps.{steps_of};
ghost use Rattle.trick_exec_sources.specs.Turns.{is_among};

use crate::lent::Run;
use crate::sending::send_all;
use std::alloc::{AllocError, Global};
use std::sync::ledger::Ledger;
use trick_exec_entries::{Hearing, Message, samples, stay};
use trick_exec_frame::{Rest, pass};
use trick_exec_sources::Turns;
use trick_lang::Cells;
use trick_model::{Accepted, Entry, Session, State, World};
use trick_outside::{Shelf, Stop};
use trick_phase_jobs::Phases;
use trick_post_work::Posts;

// Hands over the samples of a turn, at whose start the tic was `from`.
fn send_samples<M: Cells, T: Turns<M>>(
    alloc: Global,
    sessions: &[Session],
    state: &State<M>,
    from: u64,
    turns: &mut T,
) -> Result<(), AllocError>
    requires right { All (IsSession (length (M.numbers state.now.memory))) sessions.now }
    requires reached { numbers_of sessions.now ≡ (T.sessions turns.old).reached }
    ensures { Says T.Turns turns.old turns.new result (samples_of from (seen M.numbers state.now) sessions.now) }
{
    let said = samples(alloc, sessions, state, from)?;
    send_all(&said, turns)?;
    Ok(())
}

impl<'a, F: Shelf, H, P: Posts, T, L: Ledger> Run<'a, F, H, P, T, L> {
    /// The rest of a turn after its notes: its replies are handed over, its frame passes with its publications,
    /// and its samples are handed over. It stops where the shelf failed, or where there was no memory; the
    /// world is gone then.
    pub(crate) fn finish<M: Cells + Drop>(
        &mut self,
        accepted: &Accepted,
        hearing: Hearing<M>,
        replies: &[Message],
        publications: &[Entry],
    ) -> Result<World<M>, Stop>
    where
        H: Phases<M>,
        T: Turns<M>,
        requires ready { IsReady H.Phases P.Posts accepted.now.plan self.old
            (seen M.numbers hearing.current.state) (M.scalars hearing.current.state.memory) }
        requires sessions { AreHeard (plan_of accepted.now.plan) hearing.sessions.items [] }
        requires replies { All (λ (message : MessageOf). IsTrue (is_among message.0
            (T.sessions self.old.turns.now).reached)) (said_of replies.now) }
        requires reached { numbers_of hearing.sessions.items ≡ (T.sessions self.old.turns.now).reached }
        ensures same { IsSame self.old self.new }
        ensures waits { self.new.waits.now ≡ self.old.waits.now }
        ensures state { IfOk result (λ after. seen M.numbers after.state
            ≡ state_after (plan_of accepted.now.plan) publications.now
            (asking_of M.numbers hearing.current)) }
        ensures sessions { IfOk result (λ after. after.sessions.items
            ≡ staying hearing.sessions.items) }
        ensures does { Does F.Shelf self.old.shelf.now self.new.shelf.now result (steps_of
            (writes_after (plan_of accepted.now.plan) publications.now
            (asking_of M.numbers hearing.current))) }
        ensures says { Says T.Turns self.old.turns.now self.new.turns.now result (said_of replies.now
            ++ samples_of hearing.current.state.tic
            (state_after (plan_of accepted.now.plan) publications.now
            (asking_of M.numbers hearing.current))
            hearing.sessions.items) }
        ensures ready { IfOk result (λ after. IsReady H.Phases P.Posts accepted.now.plan self.new
            (seen M.numbers after.state) (M.scalars after.state.memory)) }
        ensures asks { AsksNothing P.Posts self.old.workers.now.posts self.new.workers.now.posts }
    {
        let from = hearing.current.state.tic;
        let Ok(()) = send_all(replies, self.turns) else {
            return Err(Stop::Memory);
        };
        let rest = Rest {
            current: hearing.current,
            publications,
        };
        let mut sessions = hearing.sessions;
        let state = pass(accepted, rest, self.equipment, self.shelf, self.workers)?;
        let Ok(()) = send_samples(self.alloc, &sessions, &state, from, self.turns) else {
            return Err(Stop::Memory);
        };
        stay(&mut sessions);
        Ok(World { state, sessions })
    }
}
