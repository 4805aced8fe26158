//! The jobs of a thread, in key order, with the next tic of each.

ghost use Rattle.std.specs.Prelude.{◌≡◌, ◌+◌, ◌<◌, ◌≤◌, IfOk, length};
ghost use Rattle.trick_base.specs.Time.{tic_limit};
ghost use Rattle.trick_model.specs.Valid.{ids};
ghost use Rattle.trick_post_trays.specs.Calendars.{IsCalendar, IsSet, due_of};
ghost use Rattle.trick_queue.specs.Line.{AreScheduled};
ghost use Rattle.trick_queue.specs.Tree.{IsLeast};

use std::alloc::{AllocError, Global};
use trick_base::Items;
use trick_cycle::laws::due_test_is_exact;
use trick_lang::JobId;
use trick_model::Plan;
use trick_queue::{Tics, fill, pass};

/// The jobs of a thread, with the next tic of each from one on.
#[derive(Drop)]
pub struct Calendar {
    /// Of class scheduled, in key order.
    pub jobs: Items<JobId>,
    pub tics: Tics,
    pub from: u64,
    /// The jobs that are due at the tic that was passed last.
    pub due: Vec<JobId>,
}

impl Calendar {
    /// A calendar of these jobs. This call alone takes memory.
    pub fn new(alloc: Global, plan: &Plan, jobs: Items<JobId>) -> Result<Self, AllocError>
        requires scheduled { AreScheduled plan.now.program.jobs jobs }
        requires few { length jobs ≤ 512 }
        ensures own { IfOk result (IsCalendar plan.now) }
        ensures jobs { IfOk result (λ calendar. calendar.jobs ≡ jobs) }
    {
        let tics = Tics::new(alloc, jobs.len())?;
        let due = Vec::with_capacity(alloc, jobs.len())?;
        Ok(Calendar {
            jobs,
            tics,
            from: 0,
            due,
        })
    }

    /// Sets the calendar to a tic.
    pub fn set(&mut self, plan: &Plan, from: u64)
        requires { IsCalendar plan.now self.old }
        ensures own { IsCalendar plan.now self.new }
        ensures set { IsSet plan.now self.new }
        ensures from { self.new.from ≡ from }
        ensures jobs { self.new.jobs ≡ self.old.jobs }
    {
        fill(plan, self.jobs.as_slice(), from, &mut self.tics);
        self.from = from;
    }

    /// The least tic from the calendar's on at which a job is due.
    pub fn next(&self) -> u64
        ensures { IsLeast self.now.tics result }
    {
        self.tics.least()
    }

    /// Passes all tics up to this one, which is not below the calendar's, and notes the jobs that are due
    /// at this one.
    pub fn pass(&mut self, plan: &Plan, tic: u64)
        requires own { IsCalendar plan.now self.old }
        requires set { IsSet plan.now self.old }
        requires from { self.old.from ≤ tic }
        requires range { tic ≤ tic_limit }
        ensures own { IsCalendar plan.now self.new }
        ensures set { IsSet plan.now self.new }
        ensures from { self.new.from ≡ tic + 1 }
        ensures jobs { self.new.jobs ≡ self.old.jobs }
        ensures due { ids self.new.due.items ≡ due_of plan.now.program.jobs (ids self.old.jobs) tic }
    {
        due_test_is_exact();
        self.due.clear();
        pass(
            plan,
            self.jobs.as_slice(),
            tic,
            &mut self.tics,
            &mut self.due,
        );
        self.from = tic + 1;
    }
}
