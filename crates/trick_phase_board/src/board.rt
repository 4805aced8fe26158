ghost use Rattle.std.specs.Option.{IfSome};
ghost use Rattle.std.specs.Prelude.{◌≡◌, ◌≢◌, ℕ, ℤ, ◌<◌, ◌≤◌, List, IfOk, IsSome, MatchOption, None, Some, is_some, length};
ghost use Rattle.trick_phase_board.specs.Answers.{CanDo, ComesTo, Commits, Counts, HasCopy, IfDone, IfLeft, IfMemory, IfNotDone, IsEmptiedOf, IsFilledBy, IsLeftBy, IsStale, Runs, Takes, open_count};
ghost use Rattle.trick_phase_board.specs.Counts.{own_anew};
ghost use Rattle.trick_phase_board.specs.Search.{is_in_flight};
ghost use Rattle.trick_phase_board.specs.Board.{IsBoardOf, IsOpenedWith, next_phase as next_phase_of, stepped, tic_at, with_run};
ghost use Rattle.trick_eval.specs.Bench.{IsEvaluated, IsFilled, IsFirstDifference, IsFor as IsBenchFor, the_job};
ghost use Rattle.trick_phase_jobs.specs.Belongs.{IsMemoryOf};
ghost use Rattle.trick_lang.specs.Effect.{reads};
ghost use Rattle.trick_lang.specs.Laws.{AgreeOn};
ghost use Rattle.trick_model.specs.Acceptance.{IsAccepted};
ghost use Rattle.trick_model.specs.Order.{jobs_at};
ghost use Rattle.trick_model.specs.PlanOf.{plan_of};
ghost use Rattle.trick_model.specs.Valid.{ids};
ghost use Rattle.trick_model.specs.declared.plan.Plan.{Plan as PlanValue};
ghost use Rattle.trick_model.specs.FaultList.{with_faults};
ghost use Rattle.trick_model.specs.Running.{serial};
ghost use Rattle.trick_phase_schedules.specs.Play.{copy_of, faults_in, opening, played, stage_at};
ghost use Rattle.trick_phase_schedules.specs.declared.stage.Stage.TheVariants.{InFlight, Waiting};
ghost use Rattle.trick_phase_schedules.specs.declared.step.Step.{Step};
ghost use Rattle.trick_phase_schedules.specs.declared.step.Step.TheVariants.{Commit as CommitOf, Take as TakeOf};

use crate::counts::{count_all, lower, lower_thread, rank_all};
use crate::known::Known;
use crate::search::{Next, next_of, pass, stage_of};
use crate::step::{
    add_faults, copy_flags, copy_jobs, count_open, finish, is_flagged, let_wait, next_phase,
    set_stage,
};
use crate::tables::{THREADS, list_at};
use crate::{Closed, Commit, Ran, Tables, Took};
use std::alloc::{AllocError, Global};
use std::marker::Model;
use std::mem::replace;
use trick_eval::{Bench, eval};
use trick_lang::laws::overwrite_law;
use trick_lang::{Cell, Cells, JobId};
use trick_model::laws::key_order_is_one;
use trick_model::{Accepted, Faults, Flags, Plan};
use trick_phase_schedules::Stage;
use trick_phase_schedules::laws::{boards_need_no_copies, every_schedule_is_serial};

/// The due jobs of one tic after another, each of which is waiting, in flight or committed. It keeps the
/// memory while a tic is open. All of its buffers are made with it.
#[derive(Drop)]
pub struct Board<M: Cells> {
    phase: u64,
    tic: u64,
    memory: Option<M>,
    // By job.
    on: Vec<bool>,
    stages: Vec<Stage>,
    // In key order.
    due: Vec<JobId>,
    tables: Tables,
    known: Known,
}

impl<M: Cells> Model for Board<M> {
    ghost use Rattle.std.specs.Option.{option_map};
    ghost use Rattle.std.specs.Prelude.{length, vec_capacity};
    ghost use Rattle.trick_phase_board.specs.Board.{AreDueAmong, BoardView, IsRoomy, opened_of};
    ghost use Rattle.trick_phase_board.specs.Counts.{AreCounted, AreInTurn, AreRanked};
    ghost use Rattle.trick_phase_board.specs.Search.{ArePassed};
    ghost use Rattle.trick_model.specs.Valid.{ids};

    ghost Value = { BoardView };

    ghost view = { λ b. record {
      phase = b.phase;
      tables = b.tables;
      opened = option_map (opened_of M.numbers M.scalars b.tic b.on.items b.due.items b.stages.items) b.memory;
      jobs = length b.stages.items;
    } };

    ghost invariant = { λ b. IsRoomy (length b.stages.items) (length b.on.items) (length b.due.items)
        (vec_capacity b.due) (length b.known.counts.items) (length b.known.ranks.items) (length b.known.left.items)
        × ArePassed b.tables b.stages.items b.known.passed.items
        × AreDueAmong (ids b.due.items) b.stages.items
        × AreCounted b.tables b.stages.items b.known.counts.items
        × AreRanked b.tables b.due.items b.stages.items b.known.ranks.items b.known.left.items
        × AreInTurn b.tables b.due.items b.stages.items };
}

impl<M: Cells> Board<M> {
    /// A closed board of a plan. This call alone takes memory. It costs the jobs times the jobs and
    /// the depends_on pairs.
    pub fn new(alloc: Global, accepted: &Accepted) -> Result<Self, AllocError>
        ensures belongs { IfOk result (IsBoardOf accepted.now.plan) }
        ensures closed { IfOk result (λ b. b.opened ≡ None) }
        ensures phase { IfOk result (λ b. b.phase ≡ 0) }
    {
        let plan = accepted.plan();
        let jobs = plan.program.jobs.len();
        let on = vec![in alloc; false; jobs]?;
        let stages = vec![in alloc; Stage::Idle; jobs]?;
        let due = Vec::with_capacity(alloc, jobs)?;
        let tables = Tables::new(alloc, plan)?;
        let passed = vec![in alloc; 0; THREADS as usize]?;
        let counts = vec![in alloc; 0; jobs]?;
        let ranks = vec![in alloc; 0; jobs]?;
        let left = vec![in alloc; 0; THREADS as usize]?;
        Ok(Board {
            phase: 0,
            tic: 0,
            memory: None,
            on,
            stages,
            due,
            tables,
            known: Known {
                passed,
                counts,
                ranks,
                left,
            },
        })
    }

    /// Whether a tic is open.
    pub fn is_open(&self) -> bool
        ensures { result ≡ is_some self.now.opened }
    {
        self.memory.is_some()
    }

    /// The phase: a number for each tic that was opened, from 1 on, and 0 before the first.
    pub fn phase(&self) -> u64
        ensures { result ≡ self.now.phase }
    {
        self.phase
    }

    /// The tic that is open, and without one the last that was, or 0.
    pub fn tic(&self) -> u64
        ensures { IfSome self.now.opened (λ o. result ≡ o.tic) }
    {
        self.tic
    }

    // Opens a tic.
    fn open_tic(&mut self, plan: &Plan, memory: M, on: &Flags, due: &[JobId], tic: u64)
        requires closed { self.old.opened ≡ None }
        requires belongs { IsBoardOf plan.now self.old }
        requires memory { IsMemoryOf plan.now.program (M.numbers memory) (M.scalars memory) }
        requires due { ids due.now ≡ jobs_at (plan_of plan.now) on.now tic }
        ensures opened { MatchOption self.new.opened ⊥ (IsOpenedWith plan.now (M.numbers memory) on.now tic) }
        ensures phase { self.new.phase ≡ next_phase_of self.old.phase }
        ensures tables { self.new.tables ≡ self.old.tables }
        ensures jobs { self.new.jobs ≡ self.old.jobs }
        ensures belongs { IsBoardOf plan.now self.new }
    {
        self.phase = next_phase(self.phase);
        self.tic = tic;
        copy_flags(on, &mut self.on);
        let_wait(due, &self.due, &mut self.stages);
        copy_jobs(due, &mut self.due);
        self.known.passed.fill(0);
        count_all(
            &self.due,
            &self.tables,
            &self.stages,
            &mut self.known.counts,
        );
        rank_all(
            &self.due,
            &self.tables,
            &mut self.known.ranks,
            &mut self.known.left,
        );
        match replace(&mut self.memory, Some(memory)) {
            None => {}
            Some(_) => unreachable!(),
        }
    }

    /// Opens a tic on a closed board: its due jobs wait, and the phase is the next one, which is 1 after
    /// the last number. It costs the due jobs of this tic, with those that they depend on, the due jobs of
    /// the last one, and one copy of the flags.
    pub fn open(&mut self, accepted: &Accepted, memory: M, on: &Flags, due: &[JobId], tic: u64)
        requires closed { self.old.opened ≡ None }
        requires belongs { IsBoardOf accepted.now.plan self.old }
        requires memory { IsMemoryOf accepted.now.plan.program (M.numbers memory) (M.scalars memory) }
        requires due { ids due.now ≡ jobs_at (plan_of accepted.now.plan) on.now tic }
        ensures opened { MatchOption self.new.opened ⊥ (IsOpenedWith accepted.now.plan (M.numbers memory) on.now tic) }
        ensures phase { self.new.phase ≡ next_phase_of self.old.phase }
        ensures tables { self.new.tables ≡ self.old.tables }
        ensures jobs { self.new.jobs ≡ self.old.jobs }
        ensures belongs { IsBoardOf accepted.now.plan self.new }
    {
        self.open_tic(accepted.plan(), memory, on, due, tic)
    }

    // What a thread can do next.
    fn next(&self, plan: &Plan, thread: u8) -> Next
        requires open { IsSome self.now.opened }
        requires belongs { IsBoardOf plan.now self.now }
        ensures { IfSome self.now.opened (λ o. CanDo (tic_at plan.now o) o.progress.stages thread result) }
    {
        key_order_is_one();
        next_of(plan, &self.tables, &self.stages, &self.known, thread)
    }

    // Passes the first jobs of a thread that do not wait and are not in flight.
    fn pass(&mut self, thread: u8)
        ensures { self.new ≡ self.old }
    {
        let at = thread as usize;
        if at < self.known.passed.len() {
            let line = list_at(self.tables.lines.as_slice(), at);
            self.known.passed[at] = pass(&self.stages, line, self.known.passed[at]);
        }
    }

    // Fills a bench with a job that waits.
    fn start(&mut self, plan: &Plan, job: JobId, bench: &mut Bench)
        requires open { IsSome self.old.opened }
        requires belongs { IsBoardOf plan.now self.old }
        requires bench { IsBenchFor plan.now.program bench.old.parts }
        requires there { job.0 < length plan.now.program.jobs }
        requires waits { IfSome self.old.opened (λ o. stage_at o.progress.stages job.0 ≡ Waiting) }
        requires first { IfSome self.old.opened (λ o. own_anew self.old.tables o.due o.progress.stages job.0 ≡ 0) }
        ensures taken { IfSome self.old.opened (λ o. self.new ≡ stepped plan.now self.old o (TakeOf job)) }
        ensures filled { IfSome self.old.opened (λ o. IsFilledBy self.old.phase
            (reads plan.now.program job) o.progress.memory bench.old bench.new job) }
        ensures belongs { IsBoardOf plan.now self.new }
    {
        if let Some(memory) = &self.memory {
            bench.fill(&plan.program, self.phase, job, memory);
        }
        set_stage(&mut self.stages, job, Stage::InFlight);
    }

    // Stores what the job of a bench does.
    fn store(&mut self, plan: &Plan, job: JobId, bench: &Bench)
        requires open { IsSome self.old.opened }
        requires belongs { IsBoardOf plan.now self.old }
        requires job { bench.now.job ≡ Some job }
        requires evaluated { IsEvaluated plan.now.program bench.now }
        requires flies { IfSome self.old.opened (λ o. stage_at o.progress.stages job.0 ≡ InFlight) }
        requires inputs { IfSome self.old.opened (λ o. AgreeOn (reads plan.now.program job)
            o.progress.memory bench.now.inputs) }
        ensures { IfSome self.old.opened (λ o. self.new ≡ stepped plan.now self.old o (CommitOf job)) }
    {
        key_order_is_one();
        let mut fault = None;
        if is_flagged(&self.on, job) {
            if let Some(memory) = &mut self.memory {
                fault = finish(plan, self.tic, job, bench, memory);
            }
        }
        set_stage(&mut self.stages, job, Stage::Done(fault));
        let followers = list_at(self.tables.followers.as_slice(), job.0 as usize);
        lower(followers, &mut self.known.counts);
        lower_thread(&self.tables, job, &mut self.known.left);
    }

    // Commits the job of a bench, which is in flight.
    fn settle(&mut self, plan: &Plan, job: JobId, bench: &Bench)
        requires open { IsSome self.old.opened }
        requires belongs { IsBoardOf plan.now self.old }
        requires job { bench.now.job ≡ Some job }
        requires evaluated { IsEvaluated plan.now.program bench.now }
        requires flies { IfSome self.old.opened (λ o. stage_at o.progress.stages job.0 ≡ InFlight) }
        requires inputs { IfSome self.old.opened (λ o. AgreeOn (reads plan.now.program job)
            o.progress.memory bench.now.inputs) }
        ensures committed { IfSome self.old.opened (λ o. self.new ≡ stepped plan.now self.old o (CommitOf job)) }
        ensures belongs { IsBoardOf plan.now self.new }
    {
        overwrite_law();
        self.store(plan, job, bench);
    }

    // The first cell that the job of a bench reads at which memory and inputs differ.
    fn stale(&self, plan: &Plan, bench: &Bench) -> Option<(Cell, i64, i64)>
        requires open { IsSome self.now.opened }
        requires belongs { IsBoardOf plan.now self.now }
        requires bench { IsBenchFor plan.now.program bench.now.parts }
        requires filled { IsFilled plan.now.program bench.now }
        ensures { IfSome self.now.opened (λ o. MatchOption result
            (AgreeOn (reads plan.now.program (the_job bench.now.job)) o.progress.memory bench.now.inputs)
            (λ d. IsFirstDifference (reads plan.now.program (the_job bench.now.job)) o.progress.memory
            bench.now.inputs (d.0).0 d.1 d.2)) }
    {
        match &self.memory {
            Some(memory) => bench.differs(&plan.program, memory),
            None => None,
        }
    }

    // Whether a job is in flight.
    fn is_flying(&self, job: JobId) -> bool
        ensures { IfSome self.now.opened (λ o. result ≡ is_in_flight (stage_at o.progress.stages job.0)) }
    {
        matches!(stage_of(&self.stages, job), Stage::InFlight)
    }

    // Commits, by a plan.
    fn commit_step(&mut self, plan: &Plan, bench: &mut Bench) -> Commit
        requires open { IsSome self.old.opened }
        requires belongs { IsBoardOf plan.now self.old }
        requires bench { IsBenchFor plan.now.program bench.old.parts }
        requires filled { IsFilled plan.now.program bench.old }
        requires evaluated { IsEvaluated plan.now.program bench.old }
        ensures answer { IfSome self.old.opened (λ o. Commits self.old.phase o.progress.stages
            o.progress.memory (reads plan.now.program (the_job bench.old.job)) bench.old
            (the_job bench.old.job) result) }
        ensures committed { result ≡ Commit.Committed → IfSome self.old.opened
            (λ o. self.new ≡ stepped plan.now self.old o (CommitOf (the_job bench.old.job))) }
        ensures emptied { result ≡ Commit.Committed → bench.new ≡ record
            bench.old { phase = 0; job = None; outcome = None } }
        ensures kept { result ≢ Commit.Committed → (self.new ≡ self.old) × (bench.new ≡ bench.old) }
        ensures belongs { IsBoardOf plan.now self.new }
    {
        let given = bench.phase();
        if given != self.phase {
            return Commit::Gone {
                phase: self.phase,
                given,
            };
        }
        let Some(job) = bench.job() else {
            unreachable!()
        };
        if !self.is_flying(job) {
            return Commit::NotTaken { job };
        }
        if let Some((cell, kept, given)) = self.stale(plan, bench) {
            return Commit::Stale { cell, kept, given };
        }
        self.settle(plan, job, bench);
        bench.clear();
        Commit::Committed
    }

    /// Stores what the evaluated job of a bench does, where the bench is one of a take of the open phase.
    /// It costs what the job reads and what it stores, and the jobs that depend on it.
    pub fn commit(&mut self, accepted: &Accepted, bench: &mut Bench) -> Commit
        requires open { IsSome self.old.opened }
        requires belongs { IsBoardOf accepted.now.plan self.old }
        requires bench { IsBenchFor accepted.now.plan.program bench.old.parts }
        requires filled { IsFilled accepted.now.plan.program bench.old }
        requires evaluated { IsEvaluated accepted.now.plan.program bench.old }
        ensures answer { IfSome self.old.opened (λ o. Commits self.old.phase o.progress.stages
            o.progress.memory (reads accepted.now.plan.program (the_job bench.old.job)) bench.old
            (the_job bench.old.job) result) }
        ensures committed { result ≡ Commit.Committed → IfSome self.old.opened
            (λ o. self.new ≡ stepped accepted.now.plan self.old o (CommitOf (the_job bench.old.job))) }
        ensures emptied { result ≡ Commit.Committed → bench.new ≡ record
            bench.old { phase = 0; job = None; outcome = None } }
        ensures kept { result ≢ Commit.Committed → (self.new ≡ self.old) × (bench.new ≡ bench.old) }
        ensures belongs { IsBoardOf accepted.now.plan self.new }
        ensures never_stale { (first : List ℤ) (steps : List Step) → IfSome self.old.opened
            (λ o. IsLeftBy (tic_at accepted.now.plan o) first steps o.progress
            → HasCopy (tic_at accepted.now.plan o) first steps bench.old
            → IsStale result → ⊥) }
    {
        every_schedule_is_serial();
        boards_need_no_copies();
        self.commit_step(accepted.plan(), bench)
    }

    // Closes, or counts what is left.
    fn close_step(&mut self, faults: &mut Faults) -> Closed<M>
        requires open { IsSome self.old.opened }
        ensures count { IfSome self.old.opened (λ o. Counts (open_count o.progress.stages (ids o.due)) result) }
        ensures memory { IfSome self.old.opened (λ o. IfMemory result (λ m. M.numbers m ≡ o.progress.memory)) }
        ensures scalars { IfSome self.old.opened (λ o. IfMemory result (λ m. M.scalars m ≡ o.scalars)) }
        ensures faults { IfSome self.old.opened
            (λ o. IfMemory result (λ _. faults.new ≡ with_faults (faults_in
            o.progress.stages (ids o.due)) faults.old)) }
        ensures closed { IfMemory result (λ _. self.new ≡ record self.old { opened = None }) }
        ensures left { IfLeft result ((self.new ≡ self.old) × (faults.new ≡ faults.old)) }
    {
        let count = count_open(&self.due, &self.stages);
        if count > 0 {
            return Closed::Left { count };
        }
        match self.memory.take() {
            Some(memory) => {
                add_faults(&self.due, &self.stages, faults);
                Closed::Memory(memory)
            }
            None => unreachable!(),
        }
    }

    /// Closes the tic where all of its jobs are committed: the memory comes back, and the faults are
    /// added in key order. It costs the due jobs.
    pub fn close(&mut self, faults: &mut Faults) -> Closed<M>
        requires open { IsSome self.old.opened }
        ensures count { IfSome self.old.opened (λ o. Counts (open_count o.progress.stages (ids o.due)) result) }
        ensures memory { IfSome self.old.opened (λ o. IfMemory result (λ m. M.numbers m ≡ o.progress.memory)) }
        ensures scalars { IfSome self.old.opened (λ o. IfMemory result (λ m. M.scalars m ≡ o.scalars)) }
        ensures faults { IfSome self.old.opened
            (λ o. IfMemory result (λ _. faults.new ≡ with_faults (faults_in
            o.progress.stages (ids o.due)) faults.old)) }
        ensures closed { IfMemory result (λ _. self.new ≡ record self.old { opened = None }) }
        ensures left { IfLeft result ((self.new ≡ self.old) × (faults.new ≡ faults.old)) }
        ensures serial { (plan : PlanValue) → ∥ IsAccepted (plan_of plan) ∥₁ → IsBoardOf plan self.old
            → (first : List ℤ) (steps : List Step)
            → IfSome self.old.opened (λ o. IsLeftBy (tic_at plan o) first steps o.progress
            → IfMemory result (λ m. ComesTo (serial (plan_of plan) o.on o.tic first)
            (M.numbers m) faults.old faults.new)) }
    {
        every_schedule_is_serial();
        boards_need_no_copies();
        self.close_step(faults)
    }

    // Takes, by a plan.
    fn take_step(&mut self, plan: &Plan, thread: u8, bench: &mut Bench) -> Took
        requires open { IsSome self.old.opened }
        requires belongs { IsBoardOf plan.now self.old }
        requires bench { IsBenchFor plan.now.program bench.old.parts }
        ensures answer { IfSome self.old.opened (λ o. Takes (tic_at plan.now o) o.progress.stages thread
            (the_job bench.new.job).0 result) }
        ensures taken { result ≡ Took.Took → IfSome self.old.opened
            (λ o. self.new ≡ stepped plan.now self.old o (TakeOf (the_job bench.new.job))) }
        ensures filled { result ≡ Took.Took → IfSome self.old.opened (λ o. IsFilledBy self.old.phase
            (reads plan.now.program (the_job bench.new.job)) o.progress.memory bench.old bench.new
            (the_job bench.new.job)) }
        ensures kept { result ≢ Took.Took → (self.new ≡ self.old) × (bench.new ≡ bench.old) }
        ensures belongs { IsBoardOf plan.now self.new }
    {
        key_order_is_one();
        self.pass(thread);
        match self.next(plan, thread) {
            Next::Nothing => Took::ThreadDone,
            Next::Waits(job, waits_for) => Took::NotYet { job, waits_for },
            Next::Ready(job) => {
                self.start(plan, job, bench);
                Took::Took
            }
        }
    }

    /// Fills a bench with the thread's next due job, where all predecessors of that are committed. It
    /// costs what the job reads and, over a whole tic, the jobs of the thread; where one that it depends on is
    /// not committed, it also costs those that it depends on.
    pub fn take(&mut self, accepted: &Accepted, thread: u8, bench: &mut Bench) -> Took
        requires open { IsSome self.old.opened }
        requires belongs { IsBoardOf accepted.now.plan self.old }
        requires bench { IsBenchFor accepted.now.plan.program bench.old.parts }
        ensures answer { IfSome self.old.opened (λ o. Takes (tic_at accepted.now.plan o)
            o.progress.stages thread (the_job bench.new.job).0 result) }
        ensures taken { result ≡ Took.Took → IfSome self.old.opened
            (λ o. self.new ≡ stepped accepted.now.plan self.old o (TakeOf (the_job bench.new.job))) }
        ensures filled { result ≡ Took.Took → IfSome self.old.opened (λ o. IsFilledBy self.old.phase
            (reads accepted.now.plan.program (the_job bench.new.job)) o.progress.memory
            bench.old bench.new (the_job bench.new.job)) }
        ensures kept { result ≢ Took.Took → (self.new ≡ self.old) × (bench.new ≡ bench.old) }
        ensures belongs { IsBoardOf accepted.now.plan self.new }
    {
        self.take_step(accepted.plan(), thread, bench)
    }

    // Takes, evaluates and commits a job that waits. What it reads is as it was taken.
    fn complete(&mut self, plan: &Plan, job: JobId, bench: &mut Bench)
        requires open { IsSome self.old.opened }
        requires belongs { IsBoardOf plan.now self.old }
        requires bench { IsBenchFor plan.now.program bench.old.parts }
        requires there { job.0 < length plan.now.program.jobs }
        requires waits { IfSome self.old.opened (λ o. stage_at o.progress.stages job.0 ≡ Waiting) }
        requires first { IfSome self.old.opened (λ o. own_anew self.old.tables o.due o.progress.stages job.0 ≡ 0) }
        ensures run { IfSome self.old.opened (λ o. self.new ≡ with_run plan.now self.old o job) }
        ensures emptied { IsEmptiedOf bench.old bench.new }
        ensures belongs { IsBoardOf plan.now self.new }
    {
        self.start(plan, job, bench);
        eval(&plan.program, bench);
        self.settle(plan, job, bench);
        bench.clear();
    }

    // Takes, evaluates and commits, by a plan.
    fn run_step(&mut self, plan: &Plan, thread: u8, bench: &mut Bench) -> Ran
        requires open { IsSome self.old.opened }
        requires belongs { IsBoardOf plan.now self.old }
        requires bench { IsBenchFor plan.now.program bench.old.parts }
        ensures answer { IfSome self.old.opened (λ o. Runs (tic_at plan.now o) o.progress.stages thread result) }
        ensures run { IfDone result (λ job. IfSome self.old.opened
            (λ o. self.new ≡ with_run plan.now self.old o job)) }
        ensures emptied { IfDone result (λ _. IsEmptiedOf bench.old bench.new) }
        ensures kept { IfNotDone result ((self.new ≡ self.old) × (bench.new ≡ bench.old)) }
        ensures belongs { IsBoardOf plan.now self.new }
    {
        key_order_is_one();
        self.pass(thread);
        match self.next(plan, thread) {
            Next::Nothing => Ran::ThreadDone,
            Next::Waits(job, waits_for) => Ran::NotYet { job, waits_for },
            Next::Ready(job) => {
                self.complete(plan, job, bench);
                Ran::Done { job }
            }
        }
    }

    /// Takes the thread's next due job, where all predecessors of that are committed, evaluates it in a
    /// bench and commits it. Nothing changes between, so its inputs are compared with nothing, and the
    /// bench is empty after it. It costs what the job reads, does and stores, and else what a take costs.
    pub fn run(&mut self, accepted: &Accepted, thread: u8, bench: &mut Bench) -> Ran
        requires open { IsSome self.old.opened }
        requires belongs { IsBoardOf accepted.now.plan self.old }
        requires bench { IsBenchFor accepted.now.plan.program bench.old.parts }
        ensures answer { IfSome self.old.opened (λ o. Runs (tic_at accepted.now.plan o)
            o.progress.stages thread result) }
        ensures run { IfDone result (λ job. IfSome self.old.opened
            (λ o. self.new ≡ with_run accepted.now.plan self.old o job)) }
        ensures emptied { IfDone result (λ _. IsEmptiedOf bench.old bench.new) }
        ensures kept { IfNotDone result ((self.new ≡ self.old) × (bench.new ≡ bench.old)) }
        ensures belongs { IsBoardOf accepted.now.plan self.new }
    {
        self.run_step(accepted.plan(), thread, bench)
    }
}
