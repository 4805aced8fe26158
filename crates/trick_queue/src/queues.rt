//! The due jobs of a tic in key order, and the next tic at which a job is due.
ghost use Rattle.std.specs.Prelude.{◌≡◌, ℕ, ◌+◌, ◌<◌, ◌≤◌, [], IfOk, List, None, Some, length};
ghost use Rattle.trick_base.specs.Time.{tic_limit};
ghost use Rattle.trick_cycle.specs.Least.{FindsLeast};
ghost use Rattle.trick_lang.specs.declared.job.Job.{Job};
ghost use Rattle.trick_model.specs.Order.{jobs_at};
ghost use Rattle.trick_model.specs.PlanOf.{plan_of};
ghost use Rattle.trick_model.specs.Valid.{ids};
ghost use Rattle.trick_model.specs.declared.flags.Flags.{Flags};
ghost use Rattle.trick_model.specs.declared.plan.Plan.{Plan as PlanValue};
ghost use Rattle.trick_queue.specs.Calendar.{AreNext};
ghost use Rattle.trick_queue.specs.Groups.{AreGroups, times_by};
ghost use Rattle.trick_queue.specs.Late.{late_jobs};
ghost use Rattle.trick_queue.specs.Merged.{AreThere, HasRoom, IsMergeOf, gathered};
ghost use Rattle.trick_queue.specs.Passed.{AreInRange, AreOnce, late};
ghost use Rattle.trick_queue.specs.Queue.{CanAsk, IsBusy, IsFor};

use crate::calendar::Calendar;
use crate::group::{Group, groups_of};
use crate::jobs::queue;
use crate::merge::Merge;
use crate::one_tic::pass_tic;
use crate::steps::Steps;
use std::alloc::{AllocError, Global};
use std::marker::{Brand, Model};
use std::sync::ledger::{Blank, Ledger};
use trick_cycle::{Due, laws};
use trick_lang::JobId;
use trick_model::Plan;

/// The jobs of class scheduled on scheduled threads, in groups of those that are due at the same tics, with the next
/// tic of each group. It gives the due jobs of a tic at a cost for each group that is due, and for each due job where
/// several groups are.
#[derive(Drop)]
pub struct Queues {
    jobs: Vec<JobId>,
    groups: Vec<Group>,
    calendar: Calendar,
    // the groups that are due at the tic that was asked for last
    due: Vec<u32>,
    merge: Merge,
    from: u64,
    asked: Option<u64>,
}

impl Model for Queues {
    ghost use Rattle.std.specs.Prelude.{◌≤◌, length, vec_capacity};
    ghost use Rattle.trick_queue.specs.Merged.{AreThere, HasRoom};
    ghost use Rattle.trick_queue.specs.Queue.{QueuesView};

    ghost Value = { QueuesView };

    ghost view = { λ q. record {
      jobs = q.jobs.items;
      groups = q.groups.items;
      tics = q.calendar;
      from = q.from;
      asked = q.asked;
      due = q.due.items;
      merged = q.merge.groups.items;
      merged_jobs = q.merge.jobs.items;
    } };

    ghost invariant = { λ q. (length q.groups.items ≤ vec_capacity q.due)
        × HasRoom q.merge (length q.groups.items) (length q.jobs.items)
        × AreThere q.due.items (length q.groups.items) };
}

// When each of these groups is due.
fn times_of(alloc: Global, groups: &[Group]) -> Result<Vec<Due>, AllocError>
    ensures { IfOk result (λ times. times.items ≡ times_by groups.now) }
{
    let mut times = Vec::with_capacity(alloc, groups.len())?;
    for group in groups {
        times.push_reserved(group.times);
    }
    Ok(times)
}

// The calendar of these groups from a tic on.
fn calendar_of(alloc: Global, groups: &[Group], from: u64) -> Result<Calendar, AllocError>
    requires few { length groups.now ≤ 65536 }
    requires range { AreInRange (times_by groups.now) }
    ensures { IfOk result (λ calendar. AreNext (times_by groups.now) from calendar) }
{
    let times = times_of(alloc, groups)?;
    Calendar::new(alloc, &times, from)
}

// Puts the jobs of the groups that are due together, where there are several and these are not together yet.
fn merge_due(jobs: &[JobId], groups: &[Group], due: &[u32], merge: &mut Merge)
    requires room { HasRoom merge.old (length groups.now) (length jobs.now) }
    requires many { length due.now ≤ length groups.now }
    requires there { AreThere due.now (length groups.now) }
    requires once { AreOnce due.now }
    requires few { length (gathered groups.now due.now) ≤ length jobs.now }
    requires places { AreThere (gathered groups.now due.now) (length jobs.now) }
    ensures room { HasRoom merge.new (length groups.now) (length jobs.now) }
    ensures several { 2 ≤ length due.now → merge.new.groups.items ≡ due.now }
    ensures merged { (program : List Job) → AreGroups program jobs.now (length jobs.now) groups.now
        → IsMergeOf program jobs.now groups.now merge.old → IsMergeOf program jobs.now groups.now merge.new }
{
    if due.len() < 2 || due == merge.groups.as_slice() {
        return;
    }
    merge.make(jobs, groups, due);
}

impl Queues {
    /// The queues of a plan for a run that goes on at a tic. This call alone takes memory.
    pub fn new(alloc: Global, plan: &Plan, tic: u64) -> Result<Self, AllocError>
        ensures own { IfOk result (λ q. IsFor plan.now q) }
        ensures from { IfOk result (λ q. q.from ≡ tic) }
        ensures asked { IfOk result (λ q. q.asked ≡ None) }
    {
        let jobs = queue(alloc, plan)?;
        let groups = groups_of(alloc, plan, &jobs)?;
        let calendar = calendar_of(alloc, &groups, tic)?;
        let due = Vec::with_capacity(alloc, groups.len())?;
        let merge = Merge::new(alloc, groups.len(), jobs.len())?;
        Ok(Queues {
            jobs,
            groups,
            calendar,
            due,
            merge,
            from: tic,
            asked: None,
        })
    }

    /// Asks for the due jobs of a tic, which [`due`](Self::due) then gives. The tic is not passed yet,
    /// or is the one that was asked for last. All tics up to it are passed then. It tells how many steps it took: at
    /// most one for each job whose least due tic not passed is at most the tic, or for each group of these, and one
    /// more. It takes no memory.
    pub fn ask_counted<L: Ledger>(&mut self, plan: &Plan, tic: u64, steps: &mut Steps<L>) -> u64
        requires own { IsFor plan.now self.old }
        requires tic { CanAsk self.old tic }
        requires range { tic ≤ tic_limit }
        ensures own { IsFor plan.now self.new }
        ensures from { self.new.from ≡ tic + 1 }
        ensures asked { self.new.asked ≡ Some tic }
        ensures steps { steps.new ≤ steps.old + late tic self.old.tics + 1 }
        ensures counted { steps.new ≡ steps.old + result }
        ensures jobs { result ≤ late_jobs (plan_of plan.now) self.old.from tic + 1 }
    {
        if self.asked == Some(tic) {
            return 0;
        }
        laws::due_test_is_exact();
        self.due.clear();
        let taken = pass_tic(&self.groups, tic, &mut self.calendar, &mut self.due, steps);
        merge_due(&self.jobs, &self.groups, &self.due, &mut self.merge);
        self.from = tic + 1;
        self.asked = Some(tic);
        taken
    }

    // Asks with a counter of its own.
    fn ask_by<L: Ledger>(&mut self, plan: &Plan, tic: u64, blank: Blank) -> u64
        requires own { IsFor plan.now self.old }
        requires tic { CanAsk self.old tic }
        requires range { tic ≤ tic_limit }
        requires name { blank.name ≡ L.name }
        requires parts { blank.parts ≡ L.parts }
        requires one { 0 < L.parts }
        ensures own { IsFor plan.now self.new }
        ensures from { self.new.from ≡ tic + 1 }
        ensures asked { self.new.asked ≡ Some tic }
        ensures jobs { result ≤ late_jobs (plan_of plan.now) self.old.from tic + 1 }
    {
        let mut steps = Steps::<L>::new(blank);
        self.ask_counted(plan, tic, &mut steps)
    }

    /// Asks for the due jobs of a tic, as [`ask_counted`](Self::ask_counted) does, with a counter of its own. It tells
    /// how many steps it took: at most one for each job whose least due tic not passed is at most the tic, and one
    /// more.
    pub fn ask(&mut self, plan: &Plan, tic: u64) -> u64
        requires own { IsFor plan.now self.old }
        requires tic { CanAsk self.old tic }
        requires range { tic ≤ tic_limit }
        ensures own { IsFor plan.now self.new }
        ensures from { self.new.from ≡ tic + 1 }
        ensures asked { self.new.asked ≡ Some tic }
        ensures jobs { result ≤ late_jobs (plan_of plan.now) self.old.from tic + 1 }
    {
        self.ask_by::<Brand>(plan, tic, Blank::new(1))
    }

    /// The due jobs of scheduled threads of the tic that was asked for last, in key order.
    pub fn due(&self) -> &[JobId]
        ensures { (plan : PlanValue) (on : Flags) (tic : ℕ) → IsFor plan self.now → self.now.asked ≡ Some tic
            → ids result.now ≡ jobs_at (plan_of plan) on tic }
    {
        match self.due.as_slice() {
            [] => &[],
            [group] => &self.groups[*group as usize].jobs,
            _ => &self.merge.jobs,
        }
    }

    /// The least tic that is not passed at which a job is due. `None` where there is none.
    pub fn next(&self) -> Option<u64>
        ensures { (plan : PlanValue) (on : Flags) → IsFor plan self.now
            → FindsLeast (IsBusy plan on self.now.from) result }
    {
        laws::due_test_is_exact();
        self.calendar.least()
    }
}
