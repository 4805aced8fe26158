//! What lies behind the turn.
ghost use Rattle.std.specs.Option.{IfSome};
ghost use Rattle.std.specs.Prelude.{◌≡◌, ◌++◌, ◌∷◌, [], ℕ, IfOk, IsSome, List, None, Some, false};
ghost use Rattle.trick_phase_board.specs.Answers.{IfMemory, IsFilledBy};
ghost use Rattle.trick_phase_board.specs.Board.{IsBoardOf, stepped};
ghost use Rattle.trick_eval.specs.Bench.{IsEvaluated, IsFilled, IsFor as IsBenchFor, the_job};
ghost use Rattle.trick_hall_kept.specs.Answers.{ClosesIn, CommitsIn, TakesIn, told_by_close, told_by_commit, told_by_take};
ghost use Rattle.trick_hall_kept.specs.Histories.{Course, after, has_shut};
ghost use Rattle.trick_hall_kept.specs.Kept.{CommitsTo, TakesFrom};
ghost use Rattle.trick_hall_kept.specs.Openings.{open_entry};
ghost use Rattle.trick_hall_kept.specs.Standing.{IsStanding, StandsAt};
ghost use Rattle.trick_hall_kept.specs.declared.entry.Entry.{Entry as EntryValue};
ghost use Rattle.trick_phase_jobs.specs.Belongs.{IsMemoryOf};
ghost use Rattle.trick_lang.specs.Effect.{reads, scalars_of};
ghost use Rattle.trick_model.specs.Order.{jobs_at};
ghost use Rattle.trick_model.specs.PlanOf.{plan_of};
ghost use Rattle.trick_model.specs.Valid.{ids};
ghost use Rattle.trick_model.specs.declared.plan.Plan.{Plan as PlanValue};
ghost use Rattle.trick_phase_schedules.specs.declared.step.Step.TheVariants.{Commit as CommitOf, Take as TakeOf};
ghost use Rattle.trick_turn.specs.Views.{entries_told};

use crate::answers::{HandCommit, HandTook};
use crate::entry::Entry;
use std::alloc::{AllocError, Global};
use std::marker::{Model, PhantomData};
use trick_eval::Bench;
use trick_lang::laws::{frame_law, write_law};
use trick_lang::{Cells, JobId};
use trick_model::laws::key_order_is_one;
use trick_model::{Accepted, Faults, Flags, Planned};
use trick_phase_board::{Board, Closed, Commit, Took};
use trick_race::laws::due_jobs_are_settled;
use trick_turn::Keeps;

/// A board of the plan of `P`, and whether the hall was shut. Its calls keep it in the state that the history leaves.
/// The board is behind a pointer, since each turn moves this value in and out of the lock.
#[derive(Drop)]
pub struct Kept<M: Cells, P: Planned> {
    board: Box<Board<M>>,
    shut: bool,
    of: PhantomData<P>,
}

impl<M: Cells, P: Planned> Model for Kept<M, P> {
    ghost use Rattle.trick_hall_kept.specs.HallView.{HallView};

    ghost Value = { HallView };

    ghost view = { λ k. record { board = k.board.value; shut = k.shut } };
}

impl<M: Cells, P: Planned> Keeps for Kept<M, P> {
    ghost use Rattle.trick_hall_kept.specs.Histories.{seat_of};
    ghost use Rattle.trick_hall_kept.specs.Standing.{Stands};

    type Entry = Entry;

    ghost stands = { Stands P.plan };

    ghost seat = { seat_of };
}

impl<M: Cells, P: Planned> Kept<M, P> {
    /// A closed board, before the first entry. This call alone takes memory.
    pub fn new(alloc: Global, accepted: &Accepted) -> Result<Self, AllocError>
    where
        M: Drop,
        ensures { IfOk result (λ k. StandsAt accepted.now.plan k []) }
    {
        let board = Box::new(alloc, Board::new(alloc, accepted)?)?;
        Ok(Kept {
            board,
            shut: false,
            of: PhantomData,
        })
    }

    /// The tic that is open.
    pub fn tic(&self) -> u64
        ensures { (plan : PlanValue) (log : List EntryValue) → StandsAt plan self.now log
            → IfSome (after log).course (λ c. result ≡ c.opening.tic) }
    {
        self.board.tic()
    }

    /// Opens a tic.
    pub fn open(&mut self, accepted: &Accepted, memory: M, on: &Flags, due: &[JobId], tic: u64)
        requires closed { (log : List EntryValue) × StandsAt accepted.now.plan self.old log
            × ((after log).course ≡ None) }
        requires memory { IsMemoryOf accepted.now.plan.program (M.numbers memory) (M.scalars memory) }
        requires due { ids due.now ≡ jobs_at (plan_of accepted.now.plan) on.now tic }
        ensures entry { open_entry self.new on.now tic ≡ Entry.Open 1 (M.numbers memory) on.now tic }
        ensures stands { (log : List EntryValue) → StandsAt accepted.now.plan self.old log
            → (after log).course ≡ None → has_shut log ≡ false
            → StandsAt accepted.now.plan self.new (log ++ Entry.Open 1 (M.numbers memory) on.now tic ∷ []) }
    {
        self.board.open(accepted, memory, on, due, tic);
    }

    /// Closes the tic where all of its jobs are committed.
    pub fn close(&mut self, accepted: &Accepted, faults: &mut Faults) -> Closed<M>
        requires opened { (log : List EntryValue) × StandsAt accepted.now.plan self.old log
            × IsSome (after log).course }
        ensures answer { (log : List EntryValue) (c : Course) → StandsAt accepted.now.plan self.old log
            → (after log).course ≡ Some c
            → ClosesIn M.numbers accepted.now.plan c.opening log faults.old faults.new result }
        ensures stands { (log : List EntryValue) → StandsAt accepted.now.plan self.old log
            → StandsAt accepted.now.plan self.new (log ++ entries_told (told_by_close result)) }
        ensures scalars { IfMemory result (λ m. M.scalars m ≡ scalars_of accepted.now.plan.program.cells) }
    {
        key_order_is_one();
        due_jobs_are_settled();
        frame_law();
        write_law();
        let _plan = accepted.plan();
        self.board.close(faults)
    }

    /// Shuts the hall.
    pub fn shut(&mut self)
        ensures { (plan : PlanValue) (log : List EntryValue) → StandsAt plan self.old log → (after log).course ≡ None
            → StandsAt plan self.new (log ++ Entry.Shut 1 ∷ []) }
    {
        self.shut = true;
    }

    // A take of the board, if it is open.
    fn take_from_board(&mut self, accepted: &Accepted, thread: u8, bench: &mut Bench) -> HandTook
        requires belongs { IsBoardOf accepted.now.plan self.old.board }
        requires bench { IsBenchFor accepted.now.plan.program bench.old.parts }
        ensures answer { TakesFrom accepted.now.plan thread self.old self.new bench.old bench.new result }
        ensures taken { result ≡ HandTook.Took → IfSome self.old.board.opened
            (λ o. self.new.board ≡ stepped accepted.now.plan self.old.board o (TakeOf (the_job bench.new.job))) }
        ensures filled { result ≡ HandTook.Took → IfSome self.old.board.opened (λ o. IsFilledBy self.old.board.phase
            (reads accepted.now.plan.program (the_job bench.new.job)) o.progress.memory
            bench.old bench.new (the_job bench.new.job)) }
        ensures belongs { IsBoardOf accepted.now.plan self.new.board }
    {
        if self.shut {
            return HandTook::Shut;
        }
        if !self.board.is_open() {
            return HandTook::Closed {
                phase: self.board.phase(),
            };
        }
        match self.board.take(accepted, thread, bench) {
            Took::Took => HandTook::Took,
            Took::NotYet { job, waits_for } => HandTook::NotYet { job, waits_for },
            Took::ThreadDone => HandTook::ThreadDone,
        }
    }

    /// Fills a bench with the thread's next due job.
    pub fn take(&mut self, accepted: &Accepted, thread: u8, bench: &mut Bench) -> HandTook
        requires standing { IsStanding accepted.now.plan self.old }
        requires bench { IsBenchFor accepted.now.plan.program bench.old.parts }
        ensures answer { (log : List EntryValue) → StandsAt accepted.now.plan self.old log
            → TakesIn accepted.now.plan thread log bench.old bench.new result }
        ensures stands { (log : List EntryValue) (seat : ℕ) → StandsAt accepted.now.plan self.old log
            → StandsAt accepted.now.plan self.new (log ++ entries_told (told_by_take seat bench.new.job result)) }
        ensures bench { bench.new.parts ≡ bench.old.parts }
        ensures filled { result ≡ HandTook.Took → IsFilled accepted.now.plan.program bench.new }
    {
        key_order_is_one();
        due_jobs_are_settled();
        frame_law();
        write_law();
        self.take_from_board(accepted, thread, bench)
    }

    // A commit to the board, if it is open.
    fn commit_to_board(&mut self, accepted: &Accepted, bench: &mut Bench) -> HandCommit
        requires belongs { IsBoardOf accepted.now.plan self.old.board }
        requires bench { IsBenchFor accepted.now.plan.program bench.old.parts }
        requires filled { IsFilled accepted.now.plan.program bench.old }
        requires evaluated { IsEvaluated accepted.now.plan.program bench.old }
        ensures answer { CommitsTo accepted.now.plan self.old self.new bench.old bench.new result }
        ensures committed { result ≡ HandCommit.Committed → IfSome self.old.board.opened
            (λ o. self.new.board ≡ stepped accepted.now.plan self.old.board o (CommitOf (the_job bench.old.job))) }
        ensures belongs { IsBoardOf accepted.now.plan self.new.board }
    {
        if self.shut {
            return HandCommit::Shut;
        }
        if !self.board.is_open() {
            return HandCommit::Closed {
                phase: self.board.phase(),
            };
        }
        match self.board.commit(accepted, bench) {
            Commit::Committed => HandCommit::Committed,
            Commit::Stale { cell, kept, given } => HandCommit::Stale { cell, kept, given },
            Commit::Gone { phase, given } => HandCommit::Gone { phase, given },
            Commit::NotTaken { job } => HandCommit::NotTaken { job },
        }
    }

    /// Stores what the evaluated job of a bench does.
    pub fn commit(&mut self, accepted: &Accepted, bench: &mut Bench) -> HandCommit
        requires standing { IsStanding accepted.now.plan self.old }
        requires bench { IsBenchFor accepted.now.plan.program bench.old.parts }
        requires filled { IsFilled accepted.now.plan.program bench.old }
        requires evaluated { IsEvaluated accepted.now.plan.program bench.old }
        ensures answer { (log : List EntryValue) → StandsAt accepted.now.plan self.old log
            → CommitsIn accepted.now.plan log bench.old bench.new result }
        ensures stands { (log : List EntryValue) (seat : ℕ) → StandsAt accepted.now.plan self.old log
            → StandsAt accepted.now.plan self.new (log ++ entries_told (told_by_commit seat bench.old.job result)) }
        ensures bench { bench.new.parts ≡ bench.old.parts }
    {
        key_order_is_one();
        due_jobs_are_settled();
        frame_law();
        write_law();
        self.commit_to_board(accepted, bench)
    }

    /// Whether a hand that found this phase has something new to find: another phase, or a hall that is shut.
    pub fn is_past(&self, phase: u64) -> bool {
        self.shut || self.board.phase() != phase
    }
}
