//! Whoever does the work of a thread.

ghost use Rattle.std.specs.Option.{IfSome};
ghost use Rattle.std.specs.Prelude.{◌≡◌, ◌≤◌, IfOk, IsSome, None, length};
ghost use Rattle.trick_eval.specs.Bench.{IsFor};
ghost use Rattle.trick_phase_jobs.specs.Belongs.{AreJobsOf, IsMemoryOf};
ghost use Rattle.trick_model.specs.Acceptance.{IsAccepted};
ghost use Rattle.trick_model.specs.FaultList.{with_faults};
ghost use Rattle.trick_model.specs.PlanOf.{plan_of};
ghost use Rattle.trick_base.specs.Time.{tic_limit};
ghost use Rattle.trick_model.specs.Valid.{ids};
ghost use Rattle.trick_post_trays.specs.Calendars.{EndsInTime, IsCalendar, IsSet, line_work};
ghost use Rattle.trick_post_trays.specs.Outputs.{IsOutcome, IsParcelOf};
ghost use Rattle.trick_post_trays.specs.Trays.{AreSet, AreThere, HasRun, IsLaidOut, IsTrayOf, IsWorkerOf, held_in};
ghost use Rattle.trick_post_work.specs.Work.{finished};
ghost use Rattle.trick_post_work.specs.declared.posts.Job1.TheVariants as work;

use crate::calendar::Calendar;
use crate::lines::all_writes;
use crate::outputs::Parcel;
use crate::scratch::{Scratch, clear, gather, spread};
use crate::tray::Tray;
use crate::write::{Duty, write_jobs};
use std::alloc::{AllocError, Global};
use trick_base::Items;
use trick_cycle::laws::due_test_is_exact;
use trick_eval::Bench;
use trick_lang::laws::write_law;
use trick_lang::{CellRange, Cells, JobId};
use trick_model::{Accepted, Faults, Flags, Plan};
use trick_phase_jobs::{Setting, run_jobs};
use trick_post_work::Job1;

/// A bench, and a memory of its own. All of its buffers are made with it.
#[derive(Drop)]
pub struct Worker {
    pub bench: Bench,
    pub scratch: Scratch,
    /// By job.
    pub on: Flags,
    /// By job, the cells that it may write.
    pub writes: Items<Items<CellRange>>,
}

// Gives each of these jobs its flag.
fn set_flags(jobs: &[JobId], flags: &[bool], on: &mut Flags)
    requires there { AreThere jobs.now (length on.old.on) }
    requires as_many { length flags.now ≡ length jobs.now }
    ensures set { AreSet (ids jobs.now) flags.now on.new }
    ensures as_many { length on.new.on ≡ length on.old.on }
{
    let mut place = jobs.len();
    while place > 0 {
        place -= 1;
        on.on.set(jobs[place].0 as usize, flags[place]);
    }
}

impl Worker {
    /// A worker for an accepted plan. This call alone takes memory.
    pub fn new(alloc: Global, accepted: &Accepted) -> Result<Self, AllocError>
        ensures { IfOk result (IsWorkerOf accepted.now.plan) }
    {
        let program = &accepted.plan().program;
        let on = vec![in alloc; false; program.jobs.len()]?;
        let writes = all_writes(alloc, accepted)?;
        let scratch = Scratch::new(alloc, program)?;
        let bench = Bench::of(alloc, program, accepted.accesses())?;
        Ok(Worker {
            bench,
            scratch,
            on: Flags {
                on: Items::from_vec(on),
            },
            writes,
        })
    }

    // Runs the jobs of a calendar that are due at the tics from the calendar's to the last one.
    fn run_tics(
        &mut self,
        plan: &Plan,
        calendar: &mut Calendar,
        last: u64,
        faults: &mut Faults,
        tic: u64,
    )
        requires bench { IsFor plan.now.program self.old.bench.parts }
        requires calendar { IsCalendar plan.now calendar.old }
        requires set { IsSet plan.now calendar.old }
        requires last { last ≤ tic_limit }
        requires memory { IsMemoryOf plan.now.program self.old.scratch.numbers self.old.scratch.scalars }
        ensures ran { HasRun plan.now tic
            (line_work plan.now.program.jobs (ids calendar.old.jobs) (work.Frame calendar.old.from last))
            self.old self.new faults.old faults.new }
        ensures calendar { IsCalendar plan.now calendar.new }
        ensures jobs { calendar.new.jobs ≡ calendar.old.jobs }
    {
        due_test_is_exact();
        let mut next = calendar.next();
        while next <= last {
            calendar.pass(plan, next);
            self.run_due(plan, &calendar.due, faults, tic);
            next = calendar.next();
        }
    }

    // Runs jobs in this order.
    fn run_due(&mut self, plan: &Plan, jobs: &[JobId], faults: &mut Faults, tic: u64)
        requires bench { IsFor plan.now.program self.old.bench.parts }
        requires jobs { AreJobsOf plan.now.program jobs.now }
        requires memory { IsMemoryOf plan.now.program self.old.scratch.numbers self.old.scratch.scalars }
        ensures { HasRun plan.now tic (ids jobs.now) self.old self.new faults.old faults.new }
    {
        let setting = Setting {
            plan,
            on: &self.on,
            tic,
        };
        run_jobs(setting, jobs, &mut self.bench, &mut self.scratch, faults);
    }

    // Does the work of the jobs of a calendar.
    fn run(
        &mut self,
        plan: &Plan,
        calendar: &mut Calendar,
        work: Job1,
        faults: &mut Faults,
        tic: u64,
    )
        requires bench { IsFor plan.now.program self.old.bench.parts }
        requires calendar { IsCalendar plan.now calendar.old }
        requires time { EndsInTime work }
        requires memory { IsMemoryOf plan.now.program self.old.scratch.numbers self.old.scratch.scalars }
        ensures ran { HasRun plan.now tic (line_work plan.now.program.jobs (ids calendar.old.jobs) work)
            self.old self.new faults.old faults.new }
        ensures calendar { IsCalendar plan.now calendar.new }
        ensures jobs { calendar.new.jobs ≡ calendar.old.jobs }
    {
        match work {
            Job1::Frame { first, last } => {
                calendar.set(plan, first);
                self.run_tics(plan, calendar, last, faults, tic);
            }
            Job1::Round => self.run_due(plan, calendar.jobs.as_slice(), faults, tic),
        }
    }

    // Lays out what a thread was handed.
    fn lay_out(&mut self, plan: &Plan, tray: &Tray)
        requires own { IsWorkerOf plan.now self.old }
        requires tray { IsTrayOf plan.now tray.now }
        requires work { IsSome tray.now.work }
        ensures { IsLaidOut plan.now tray.now self.old self.new }
    {
        let _plan = plan;
        spread(tray.scope.as_slice(), &tray.cells, &mut self.scratch);
        set_flags(tray.members.as_slice(), &tray.on, &mut self.on);
    }

    /// Does the work of a tray, which has some, and publishes it in a memory: the faults have this tic.
    /// It costs what the thread's jobs read, do and may write. Takes no memory.
    pub fn finish<M: Cells>(
        &mut self,
        plan: &Plan,
        tray: &mut Tray,
        memory: &mut M,
        faults: &mut Faults,
        tic: u64,
    )
        requires accepted { ∥ IsAccepted (plan_of plan.now) ∥₁ }
        requires own { IsWorkerOf plan.now self.old }
        requires tray { IsTrayOf plan.now tray.old }
        requires started { IsSome tray.old.work }
        requires memory { IsMemoryOf plan.now.program (M.numbers memory.old) (M.scalars memory.old) }
        ensures memory { M.numbers memory.new
            ≡ (finished (plan_of plan.now) tray.old.number (held_in tray.old) tic (M.numbers memory.old)).memory }
        ensures scalars { M.scalars memory.new ≡ M.scalars memory.old }
        ensures faults { faults.new
            ≡ with_faults (finished (plan_of plan.now) tray.old.number (held_in tray.old) tic
            (M.numbers memory.old)).faults faults.old }
        ensures own { IsWorkerOf plan.now self.new }
        ensures tray { IsTrayOf plan.now tray.new }
        ensures number { tray.new.number ≡ tray.old.number }
        ensures emptied { tray.new.work ≡ None }
    {
        write_law();
        let Some(work) = tray.work else {
            return;
        };
        self.lay_out(plan, tray);
        self.run(plan, &mut tray.calendar, work, faults, tic);
        let duty = Duty {
            plan,
            jobs: tray.calendar.jobs.as_slice(),
            work,
        };
        write_jobs(duty, self.writes.as_slice(), &self.scratch, memory);
        clear(tray.scope.as_slice(), &mut self.scratch);
        tray.work = None;
    }

    /// Does the work of a parcel, which has some, and notes what it comes to. It costs what the thread's jobs read and
    /// do. Takes no memory.
    pub fn work(&mut self, plan: &Plan, parcel: &mut Parcel)
        requires accepted { ∥ IsAccepted (plan_of plan.now) ∥₁ }
        requires own { IsWorkerOf plan.now self.old }
        requires fits { IsParcelOf plan.now parcel.old.tray.number parcel.old }
        requires started { IsSome parcel.old.tray.work }
        ensures outcome { IfSome (held_in parcel.old.tray)
            (λ s. IsOutcome plan.now parcel.old.tray.number s parcel.new.outputs) }
        ensures own { IsWorkerOf plan.now self.new }
        ensures fits { IsParcelOf plan.now parcel.old.tray.number parcel.new }
        ensures held { held_in parcel.new.tray ≡ held_in parcel.old.tray }
    {
        write_law();
        let tray = &mut parcel.tray;
        let Some(work) = tray.work else {
            return;
        };
        parcel.outputs.faults.clear();
        self.lay_out(plan, tray);
        self.run(
            plan,
            &mut tray.calendar,
            work,
            &mut parcel.outputs.faults,
            0,
        );
        gather(
            tray.scope.as_slice(),
            &self.scratch,
            &mut parcel.outputs.cells,
        );
        clear(tray.scope.as_slice(), &mut self.scratch);
    }

    /// Publishes in a memory what the work of a parcel came to: the faults get this tic. It costs what the thread's
    /// scope and faults are, and what its jobs may write. Takes no memory.
    pub fn publish<M: Cells>(
        &mut self,
        plan: &Plan,
        parcel: &Parcel,
        memory: &mut M,
        faults: &mut Faults,
        tic: u64,
    )
        requires accepted { ∥ IsAccepted (plan_of plan.now) ∥₁ }
        requires own { IsWorkerOf plan.now self.old }
        requires fits { IsParcelOf plan.now parcel.now.tray.number parcel.now }
        requires started { IsSome parcel.now.tray.work }
        requires outcome { IfSome (held_in parcel.now.tray)
            (λ s. IsOutcome plan.now parcel.now.tray.number s parcel.now.outputs) }
        requires memory { IsMemoryOf plan.now.program (M.numbers memory.old) (M.scalars memory.old) }
        ensures memory { M.numbers memory.new
            ≡ (finished (plan_of plan.now) parcel.now.tray.number (held_in parcel.now.tray) tic
            (M.numbers memory.old)).memory }
        ensures scalars { M.scalars memory.new ≡ M.scalars memory.old }
        ensures faults { faults.new
            ≡ with_faults (finished (plan_of plan.now) parcel.now.tray.number (held_in parcel.now.tray) tic
            (M.numbers memory.old)).faults faults.old }
        ensures own { IsWorkerOf plan.now self.new }
    {
        let tray = &parcel.tray;
        let Some(work) = tray.work else {
            return;
        };
        spread(
            tray.scope.as_slice(),
            &parcel.outputs.cells,
            &mut self.scratch,
        );
        let duty = Duty {
            plan,
            jobs: tray.calendar.jobs.as_slice(),
            work,
        };
        write_jobs(duty, self.writes.as_slice(), &self.scratch, memory);
        clear(tray.scope.as_slice(), &mut self.scratch);
        parcel.outputs.add_faults(faults, tic);
    }
}
