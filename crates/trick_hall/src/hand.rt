//! A hand, which takes and commits jobs of the tic that is open.
ghost use Rattle.std.specs.Arc.{arc_value};
ghost use Rattle.std.specs.Option.{IfSome};
ghost use Rattle.std.specs.Prelude.{◌≡◌, ◌++◌, IfOk, None, Some};
ghost use Rattle.trick_eval.specs.Bench.{IsEvaluated, IsFilled, IsFor as IsBenchFor};
ghost use Rattle.trick_hall_kept.specs.Answers.{CommitsAt, TakesAt, TriesCommit, TriesTake};
ghost use Rattle.trick_hall_kept.specs.Histories.{after, seat_of};
ghost use Rattle.trick_hall_kept.specs.Standing.{Stands};
ghost use Rattle.trick_hall_kept.specs.Telling.{HasLooked};
ghost use Rattle.trick_turn.specs.Passes.{IsPassOf, Releases, Rests, number_of, seen};
ghost use Rattle.trick_turn.specs.Turns.{IsTurn, pass_left, pass_of, value_of};
ghost use Rattle.trick_turn.specs.Views.{entries_told};

use std::alloc::{AllocError, Global};
use std::marker::Brand;
use std::sync::{Arc, Wait};
use trick_eval::Bench;
use trick_hall_kept::{Entry, HandCommit, HandTook, Kept};
use trick_lang::{Cells, JobId};
use trick_model::{Accepted, Planned};
use trick_turn::{Adds, Claim, Nothing, Pass, Progress, Quiet, Turn, TurnLock};

/// A hand of a hall. It may cross threads. It fills benches with due jobs and commits them, so that each due job of a
/// tic is committed once.
#[derive(Drop)]
pub struct Hand<M: Cells + Drop, P: Planned> {
    pub(crate) lock: Arc<TurnLock<Kept<M, P>>, Global>,
    /// What it has seen of the hall's history and what it added, which only proofs read.
    pub pass: Pass<Kept<M, P>>,
    /// The tic of the last job that it took.
    pub tic: u64,
    pub ghost of_lock: { IsPassOf (arc_value lock) pass },
    pub ghost rests: { Rests pass },
}

// Ends the turn of a hand that took this job, which `T` tells, or did nothing. Nobody waits for a take.
fn end_take<M: Cells + Drop, P: Planned, T: Adds<Entry>>(
    turn: Turn<'_, Kept<M, P>>,
    job: Option<JobId>,
)
    requires turn { IsTurn turn }
    requires names { IfSome T.tells (λ e. seat_of e ≡ number_of (pass_of turn)) }
    requires nothing { job ≡ None → T.tells ≡ None }
    requires stands { Stands P.plan (value_of turn) (seen (pass_of turn) ++ entries_told T.tells) }
    ensures { Releases T.tells (pass_of turn.entry) (pass_left turn.exit) }
{
    match job {
        Some(_) => turn.release::<Quiet<T>>(),
        None => turn.release::<Nothing>(),
    }
}

// Ends the turn of a hand that committed this job, which `T` tells, or did nothing. Who waits for the next tic does not
// wait for a commit.
fn end_commit<M: Cells + Drop, P: Planned, T: Adds<Entry>>(
    turn: Turn<'_, Kept<M, P>>,
    job: Option<JobId>,
)
    requires turn { IsTurn turn }
    requires names { IfSome T.tells (λ e. seat_of e ≡ number_of (pass_of turn)) }
    requires nothing { job ≡ None → T.tells ≡ None }
    requires stands { Stands P.plan (value_of turn) (seen (pass_of turn) ++ entries_told T.tells) }
    ensures { Releases T.tells (pass_of turn.entry) (pass_left turn.exit) }
{
    match job {
        Some(_) => turn.release::<Progress<T>>(),
        None => turn.release::<Nothing>(),
    }
}

impl<M: Cells + Drop, P: Planned> Hand<M, P> {
    pub(crate) fn new(
        lock: &Arc<TurnLock<Kept<M, P>>, Global>,
        pass: Pass<Kept<M, P>>,
    ) -> Result<Hand<M, P>, AllocError>
        requires { IsPassOf (arc_value lock.now) pass × Rests pass }
        ensures pass { IfOk result (λ h. h.pass ≡ pass) }
        ensures lock { IfOk result (λ h. arc_value h.lock ≡ arc_value lock.now) }
    {
        let lock = Arc::try_clone(lock)?;
        Ok(Hand { lock, pass, tic: 0 })
    }

    /// Waits for the turn, and fills a bench with the thread's next due job, where all predecessors of that are
    /// committed.
    pub fn take<R: Wait>(
        &mut self,
        rt: &R,
        accepted: &Accepted,
        thread: u8,
        bench: &mut Bench,
    ) -> HandTook
        requires plan { P.plan ≡ Some accepted.now.plan }
        requires bench { IsBenchFor accepted.now.plan.program bench.old.parts }
        ensures lock { self.new.lock ≡ self.old.lock }
        ensures answer { TakesAt accepted.now.plan thread self.old.pass self.new.pass bench.old bench.new result }
        ensures bench { bench.new.parts ≡ bench.old.parts }
        ensures filled { result ≡ HandTook.Took → IsFilled accepted.now.plan.program bench.new }
        ensures tic { result ≡ HandTook.Took
            → IfSome (after (seen self.new.pass)).course (λ c. self.new.tic ≡ c.opening.tic) }
    {
        let mut turn = self.pass.claim(rt, &self.lock);
        let kept = turn.value();
        let took = kept.take(accepted, thread, bench);
        let tic = kept.tic();
        end_take::<M, P, Brand>(turn, took.job_taken(bench.job()));
        self.tic = tic;
        took
    }

    /// Takes if the turn is free. It waits for nobody: where another pass has the turn, it answers Busy after one
    /// exchange, and the bench is as it was.
    pub fn try_take(&mut self, accepted: &Accepted, thread: u8, bench: &mut Bench) -> HandTook
        requires plan { P.plan ≡ Some accepted.now.plan }
        requires bench { IsBenchFor accepted.now.plan.program bench.old.parts }
        ensures lock { self.new.lock ≡ self.old.lock }
        ensures answer { TriesTake accepted.now.plan thread self.old.pass self.new.pass bench.old bench.new result }
        ensures bench { bench.new.parts ≡ bench.old.parts }
        ensures filled { result ≡ HandTook.Took → IsFilled accepted.now.plan.program bench.new }
        ensures tic { result ≡ HandTook.Took
            → IfSome (after (seen self.new.pass)).course (λ c. self.new.tic ≡ c.opening.tic) }
    {
        match self.pass.try_claim(&self.lock) {
            Claim::Busy { found } => HandTook::Busy { found },
            Claim::Got(mut turn) => {
                let kept = turn.value();
                let took = kept.take(accepted, thread, bench);
                let tic = kept.tic();
                end_take::<M, P, Brand>(turn, took.job_taken(bench.job()));
                self.tic = tic;
                took
            }
        }
    }

    /// Waits for the turn, and stores what the evaluated job of a bench does, where the bench is one of a take of the
    /// open tic.
    pub fn commit<R: Wait>(&mut self, rt: &R, accepted: &Accepted, bench: &mut Bench) -> HandCommit
        requires plan { P.plan ≡ Some accepted.now.plan }
        requires bench { IsBenchFor accepted.now.plan.program bench.old.parts }
        requires filled { IsFilled accepted.now.plan.program bench.old }
        requires evaluated { IsEvaluated accepted.now.plan.program bench.old }
        ensures lock { self.new.lock ≡ self.old.lock }
        ensures answer { CommitsAt accepted.now.plan self.old.pass self.new.pass bench.old bench.new result }
        ensures bench { bench.new.parts ≡ bench.old.parts }
    {
        let job = bench.job();
        let mut turn = self.pass.claim(rt, &self.lock);
        let committed = turn.value().commit(accepted, bench);
        end_commit::<M, P, Brand>(turn, committed.job_committed(job));
        committed
    }

    /// Commits if the turn is free. It waits for nobody: where another pass has the turn, it answers Busy after one
    /// exchange, and the bench is as it was.
    pub fn try_commit(&mut self, accepted: &Accepted, bench: &mut Bench) -> HandCommit
        requires plan { P.plan ≡ Some accepted.now.plan }
        requires bench { IsBenchFor accepted.now.plan.program bench.old.parts }
        requires filled { IsFilled accepted.now.plan.program bench.old }
        requires evaluated { IsEvaluated accepted.now.plan.program bench.old }
        ensures lock { self.new.lock ≡ self.old.lock }
        ensures answer { TriesCommit accepted.now.plan self.old.pass self.new.pass bench.old bench.new result }
        ensures bench { bench.new.parts ≡ bench.old.parts }
    {
        let job = bench.job();
        match self.pass.try_claim(&self.lock) {
            Claim::Busy { found } => HandCommit::Busy { found },
            Claim::Got(mut turn) => {
                let committed = turn.value().commit(accepted, bench);
                end_commit::<M, P, Brand>(turn, committed.job_committed(job));
                committed
            }
        }
    }

    // Waits for the turn, and whether the hall is past this phase.
    fn is_past<R: Wait>(&mut self, rt: &R, phase: u64) -> bool
        ensures lock { self.new.lock ≡ self.old.lock }
        ensures looked { HasLooked self.old.pass self.new.pass }
    {
        let mut turn = self.pass.claim(rt, &self.lock);
        let is_past = turn.value().is_past(phase);
        turn.release::<Nothing>();
        is_past
    }

    /// Waits until the phase is another, or the hall is shut.
    pub fn rest<R: Wait>(&mut self, rt: &R, phase: u64)
        ensures lock { self.new.lock ≡ self.old.lock }
        ensures looked { HasLooked self.old.pass self.new.pass }
    {
        for _ in rt.forever() {
            let mark = self.mark();
            if self.is_past(rt, phase) {
                return;
            }
            self.rest_since(rt, mark);
        }
    }

    /// How often so far a tic was opened, a job committed or the hall shut. A mark to rest on.
    pub fn mark(&self) -> u64 {
        self.lock.mark()
    }

    /// Sleeps until after the mark a tic was opened, a job committed or the hall shut. Take the mark first, then look by
    /// a call, and rest where there is nothing to do yet.
    pub fn rest_since<R: Wait>(&self, rt: &R, mark: u64) {
        self.lock.rest(rt, mark);
    }

    /// How often so far a tic was opened or the hall shut. A mark to rest on.
    pub fn mark_opening(&self) -> u64 {
        self.lock.mark_begun()
    }

    /// Sleeps until after the mark a tic was opened or the hall shut: for a thread whose due jobs are all committed, or
    /// where no tic is open. No commit wakes it.
    pub fn rest_until_opening<R: Wait>(&self, rt: &R, mark: u64) {
        self.lock.rest_until_begun(rt, mark);
    }
}
