//! What was handed to a thread.

ghost use Rattle.std.specs.Prelude.{◌≡◌, ◌≤◌, IfOk, None, Some, length};
ghost use Rattle.trick_model.specs.PlanOf.{plan_of};
ghost use Rattle.trick_post_trays.specs.Trays.{AreEmptyTraysOf, IsTrayOf, held_in};
ghost use Rattle.trick_post_work.specs.Work.{CanStart};

use crate::calendar::Calendar;
use crate::lines::line;
use std::alloc::{AllocError, Global};
use trick_base::Items;
use trick_chkpt_printer::{jobs_of, scope};
use trick_lang::{Cell, JobId};
use trick_model::{Plan, Process, Taken, Thread};
use trick_post_work::Job1;

/// Threads go from 0 to 15.
pub(crate) const THREADS: u8 = 16;

/// A thread's jobs and cells, and what was handed to it and is not finished.
#[derive(Drop)]
pub struct Tray {
    pub number: u8,
    pub calendar: Calendar,
    /// All jobs of the thread, in program order.
    pub members: Items<JobId>,
    /// The cells that they may read or write, in order.
    pub scope: Items<Cell>,
    /// The number of each of these cells, where there is work.
    pub cells: Vec<i64>,
    /// The flag of each of these jobs, where there is work.
    pub on: Vec<bool>,
    pub work: Option<Job1>,
}

impl Tray {
    /// A tray for the thread of a number, with no work. This call alone takes memory.
    pub fn new(alloc: Global, plan: &Plan, number: u8) -> Result<Self, AllocError>
        ensures own { IfOk result (IsTrayOf plan.now) }
        ensures number { IfOk result (λ tray. tray.number ≡ number) }
        ensures empty { IfOk result (λ tray. tray.work ≡ None) }
    {
        let thread = Thread {
            number,
            process: Process::Scheduled,
            cycle: 0,
            named: false,
        };
        let members = Items::from_vec(jobs_of(alloc, &plan.program, thread)?);
        let scope = Items::from_vec(scope(alloc, plan, thread)?);
        let cells = vec![in alloc; 0; scope.len()]?;
        let on = vec![in alloc; false; members.len()]?;
        let calendar = Calendar::new(alloc, plan, line(alloc, plan, number)?)?;
        Ok(Tray {
            number,
            calendar,
            members,
            scope,
            cells,
            on,
            work: None,
        })
    }

    /// A tray for each thread, by its number, with no work. This call alone takes memory.
    pub fn all(alloc: Global, plan: &Plan) -> Result<Vec<Self>, AllocError>
        ensures { IfOk result (λ trays. AreEmptyTraysOf plan.now trays.items) }
    {
        let mut trays = Vec::new(alloc);
        for number in 0..THREADS {
            trays.push(Tray::new(alloc, plan, number)?)?;
        }
        Ok(trays)
    }

    /// Keeps what a thread has to do. Takes no memory.
    pub fn put(&mut self, plan: &Plan, taken: &Taken, work: Job1)
        requires own { IsTrayOf plan.now self.old }
        requires right { CanStart (plan_of plan.now) self.old.number taken.now work }
        ensures own { IsTrayOf plan.now self.new }
        ensures number { self.new.number ≡ self.old.number }
        ensures held { held_in self.new ≡ Some (record { taken = taken.now; work = work }) }
    {
        let _plan = plan;
        self.cells.copy_from_slice(taken.cells.as_slice());
        self.on.copy_from_slice(taken.on.on.as_slice());
        self.work = Some(work);
    }
}
