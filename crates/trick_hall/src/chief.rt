//! The chief, who opens, closes and shuts.
ghost use Rattle.std.specs.Arc.{arc_value};
ghost use Rattle.std.specs.Option.{IfSome};
ghost use Rattle.std.specs.Prelude.{◌≡◌, ◌++◌, ◌∷◌, [], IsSome, None, Some, false};
ghost use Rattle.trick_phase_board.specs.Answers.{IfMemory};
ghost use Rattle.trick_hall_kept.specs.Answers.{ClosesAt, IfOpened, IfTriedMemory, TriesClose, TriesOpen};
ghost use Rattle.trick_hall_kept.specs.Histories.{IsLegal, Opening, fresh, has_shut, seat_of};
ghost use Rattle.trick_hall_kept.specs.Openings.{open_entry, opened_at};
ghost use Rattle.trick_hall_kept.specs.Standing.{Stands};
ghost use Rattle.trick_hall_kept.specs.Telling.{HasAdded};
ghost use Rattle.trick_phase_jobs.specs.Belongs.{IsMemoryOf};
ghost use Rattle.trick_lang.specs.Effect.{scalars_of};
ghost use Rattle.trick_model.specs.Order.{jobs_at};
ghost use Rattle.trick_model.specs.PlanOf.{plan_of};
ghost use Rattle.trick_model.specs.Valid.{ids};
ghost use Rattle.trick_turn.specs.Passes.{IsPassOf, Releases, Rests, number_of, own, seen};
ghost use Rattle.trick_turn.specs.Turns.{IsTurn, pass_left, pass_of, value_of};
ghost use Rattle.trick_turn.specs.Views.{entries_told};
ghost use mathlib.Core.List.{IsPrefix};

use crate::hand::Hand;
use std::alloc::Global;
use std::marker::Brand;
use std::sync::{Arc, Wait};
use trick_hall_kept::{Entry, Kept, TryClose, TryOpen, is_memory};
use trick_lang::{Cells, JobId};
use trick_model::{Accepted, Faults, Flags, Planned};
use trick_phase_board::Closed;
use trick_turn::{Adds, Claim, Nothing, Pass, Quiet, Turn, TurnLock};

/// The chief of a hall, who alone opens and closes its tics, and shuts it in the end.
#[derive(Drop)]
pub struct Chief<M: Cells + Drop, P: Planned> {
    pub(crate) lock: Arc<TurnLock<Kept<M, P>>, Global>,
    /// What it has seen of the hall's history and what it added, which only proofs read.
    pub pass: Pass<Kept<M, P>>,
    pub ghost of_lock: { IsPassOf (arc_value lock) pass },
    pub ghost rests: { Rests pass },
    pub ghost first: { number_of pass ≡ 1 },
}

// Ends a turn that opened a tic with these flags, which `T` tells.
fn tell_open<M: Cells + Drop, P: Planned, T: Adds<Entry>>(
    turn: Turn<'_, Kept<M, P>>,
    on: &Flags,
    tic: u64,
)
    requires turn { IsTurn turn }
    requires first { number_of (pass_of turn) ≡ 1 }
    requires tells { T.tells ≡ Some (open_entry (value_of turn) on.now tic) }
    requires stands { Stands P.plan (value_of turn)
        (seen (pass_of turn) ++ open_entry (value_of turn) on.now tic ∷ []) }
    ensures { Releases (Some (open_entry (value_of turn.entry) on.now tic)) (pass_of turn.entry) (pass_left turn.exit) }
{
    turn.release::<T>();
}

// Ends a turn that closed the tic, which `T` tells, or left it open. Nobody waits for a close.
fn tell_close<M: Cells + Drop, P: Planned, T: Adds<Entry>>(turn: Turn<'_, Kept<M, P>>, closed: bool)
    requires turn { IsTurn turn }
    requires names { IfSome T.tells (λ e. seat_of e ≡ number_of (pass_of turn)) }
    requires nothing { closed ≡ false → T.tells ≡ None }
    requires stands { Stands P.plan (value_of turn) (seen (pass_of turn) ++ entries_told T.tells) }
    ensures { Releases T.tells (pass_of turn.entry) (pass_left turn.exit) }
{
    if closed {
        turn.release::<Quiet<T>>();
    } else {
        turn.release::<Nothing>();
    }
}

impl<M: Cells + Drop, P: Planned> Chief<M, P> {
    /// Waits for the turn, and opens a tic with this memory, these flags and the jobs that are due at it.
    pub fn open<R: Wait>(
        &mut self,
        rt: &R,
        accepted: &Accepted,
        memory: M,
        on: &Flags,
        due: &[JobId],
        tic: u64,
    )
        requires plan { P.plan ≡ Some accepted.now.plan }
        requires closed { opened_at (own self.old.pass) ≡ None }
        requires not_shut { has_shut (own self.old.pass) ≡ false }
        requires memory { IsMemoryOf accepted.now.plan.program (M.numbers memory) (M.scalars memory) }
        requires due { ids due.now ≡ jobs_at (plan_of accepted.now.plan) on.now tic }
        ensures lock { self.new.lock ≡ self.old.lock }
        ensures adds { HasAdded self.old.pass self.new.pass (Entry.Open 1 (M.numbers memory) on.now tic) }
        ensures legal { IsLegal accepted.now.plan fresh (seen self.new.pass) }
        ensures opened { opened_at (own self.new.pass)
            ≡ Some (record { memory = M.numbers memory; on = on.now; tic = tic }) }
        ensures not_shut { has_shut (own self.new.pass) ≡ false }
    {
        let mut turn = self.pass.claim(rt, &self.lock);
        turn.value().open(accepted, memory, on, due, tic);
        tell_open::<M, P, Brand>(turn, on, tic);
    }

    /// Opens a tic if the turn is free. It waits for nobody: where another pass has the turn, it answers Busy after one
    /// exchange, and hands the memory back.
    pub fn try_open(
        &mut self,
        accepted: &Accepted,
        memory: M,
        on: &Flags,
        due: &[JobId],
        tic: u64,
    ) -> TryOpen<M>
        requires plan { P.plan ≡ Some accepted.now.plan }
        requires closed { opened_at (own self.old.pass) ≡ None }
        requires not_shut { has_shut (own self.old.pass) ≡ false }
        requires memory { IsMemoryOf accepted.now.plan.program (M.numbers memory) (M.scalars memory) }
        requires due { ids due.now ≡ jobs_at (plan_of accepted.now.plan) on.now tic }
        ensures lock { self.new.lock ≡ self.old.lock }
        ensures answer { TriesOpen memory self.old.pass self.new.pass
            (Entry.Open 1 (M.numbers memory) on.now tic) result }
        ensures legal { IfOpened result (IsLegal accepted.now.plan fresh (seen self.new.pass)) }
        ensures opened { IfOpened result (opened_at (own self.new.pass)
            ≡ Some (record { memory = M.numbers memory; on = on.now; tic = tic })) }
        ensures not_shut { has_shut (own self.new.pass) ≡ false }
    {
        match self.pass.try_claim(&self.lock) {
            Claim::Busy { found } => TryOpen::Busy { found, memory },
            Claim::Got(mut turn) => {
                turn.value().open(accepted, memory, on, due, tic);
                tell_open::<M, P, Brand>(turn, on, tic);
                TryOpen::Opened
            }
        }
    }

    /// Waits for the turn, and closes the tic where all of its due jobs are committed: then the memory is what one
    /// thread makes of what this chief's last open put in, and its faults are added.
    pub fn close<R: Wait>(&mut self, rt: &R, accepted: &Accepted, faults: &mut Faults) -> Closed<M>
        requires plan { P.plan ≡ Some accepted.now.plan }
        requires opened { IsSome (opened_at (own self.old.pass)) }
        ensures lock { self.new.lock ≡ self.old.lock }
        ensures answer { (x : Opening) → opened_at (own self.old.pass) ≡ Some x
            → ClosesAt M.numbers accepted.now.plan x self.old.pass self.new.pass faults.old faults.new result }
        ensures closed { IfMemory result (λ _. opened_at (own self.new.pass) ≡ None) }
        ensures shut { has_shut (own self.new.pass) ≡ has_shut (own self.old.pass) }
        ensures scalars { IfMemory result (λ m. M.scalars m ≡ scalars_of accepted.now.plan.program.cells) }
    {
        let mut turn = self.pass.claim(rt, &self.lock);
        let closed = turn.value().close(accepted, faults);
        tell_close::<M, P, Brand>(turn, is_memory(&closed));
        closed
    }

    /// Closes the tic if the turn is free. It waits for nobody: where another pass has the turn, it answers Busy after
    /// one exchange, and the faults are as they were.
    pub fn try_close(&mut self, accepted: &Accepted, faults: &mut Faults) -> TryClose<M>
        requires plan { P.plan ≡ Some accepted.now.plan }
        requires opened { IsSome (opened_at (own self.old.pass)) }
        ensures lock { self.new.lock ≡ self.old.lock }
        ensures answer { (x : Opening) → opened_at (own self.old.pass) ≡ Some x
            → TriesClose M.numbers accepted.now.plan x self.old.pass self.new.pass faults.old faults.new result }
        ensures closed { IfTriedMemory result (λ _. opened_at (own self.new.pass) ≡ None) }
        ensures shut { has_shut (own self.new.pass) ≡ has_shut (own self.old.pass) }
        ensures scalars { IfTriedMemory result (λ m. M.scalars m ≡ scalars_of accepted.now.plan.program.cells) }
    {
        match self.pass.try_claim(&self.lock) {
            Claim::Busy { found } => TryClose::Busy { found },
            Claim::Got(mut turn) => {
                let closed = turn.value().close(accepted, faults);
                tell_close::<M, P, Brand>(turn, is_memory(&closed));
                TryClose::from_closed(closed)
            }
        }
    }

    /// Waits for the turn, and shuts the hall. Nothing is opened after that.
    pub fn shut<R: Wait>(&mut self, rt: &R)
        requires closed { opened_at (own self.old.pass) ≡ None }
        ensures lock { self.new.lock ≡ self.old.lock }
        ensures adds { HasAdded self.old.pass self.new.pass (Entry.Shut 1) }
    {
        let mut turn = self.pass.claim(rt, &self.lock);
        turn.value().shut();
        turn.release::<Brand>();
    }

    /// Takes a hand in whose work is done: what both have seen is of one history, and the chief has now seen the longer
    /// part.
    pub fn take_in(&mut self, hand: Hand<M, P>)
        requires { IsPassOf (arc_value self.old.lock) hand.pass }
        ensures lock { self.new.lock ≡ self.old.lock }
        ensures own { own self.new.pass ≡ own self.old.pass }
        ensures chief { IsPrefix (seen self.old.pass) (seen self.new.pass) }
        ensures hand { IsPrefix (seen hand.pass) (seen self.new.pass) }
    {
        let Hand {
            lock: _lock,
            pass,
            tic: _tic,
        } = hand;
        self.lock.join(&mut self.pass, pass);
    }

    /// How often so far a tic was opened, a job committed or the hall shut. A mark to rest on.
    pub fn mark(&self) -> u64 {
        self.lock.mark()
    }

    /// Sleeps until after the mark a job was committed. Take the mark first, then look by a call, and rest where there is
    /// nothing to do yet.
    pub fn rest_since<R: Wait>(&self, rt: &R, mark: u64) {
        self.lock.rest(rt, mark);
    }
}
