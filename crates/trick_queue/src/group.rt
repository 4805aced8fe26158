//! Jobs that are due at the same tics.
ghost use Rattle.std.specs.Prelude.{◌≡◌, ◌∷◌, ◌++◌, ◌+◌, ◌<◌, ◌≤◌, [], IfOk, List, OnOk, ℕ, length, map};
ghost use Rattle.trick_cycle.specs.Due.{IsInRange};
ghost use Rattle.trick_lang.specs.declared.job.Job.{Job};
ghost use Rattle.trick_lang.specs.declared.job.JobId.{JobId as JobIdOf};
ghost use Rattle.trick_queue.specs.Groups.{AreGroups, HasTimes, HaveJobs, HaveJobsBut, keys_of, times_by, times_of};
ghost use Rattle.trick_queue.specs.Line.{AreScheduled, id_at};

use crate::jobs::times;
use indexmap::IndexSet;
use std::alloc::{AllocError, Global};
use trick_cycle::Due;
use trick_lang::JobId;
use trick_model::Plan;

/// Jobs that are due at the same tics: those of one start, one cycle and one stop, in key order.
#[derive(Drop)]
pub struct Group {
    /// When they are due.
    pub times: Due,
    /// Their places among all jobs of the queues, by rising number.
    pub places: Vec<u32>,
    /// The jobs at these places.
    pub jobs: Vec<JobId>,
}

// Groups of the first jobs of a list.
#[derive(Drop)]
struct Grouping {
    alloc: Global,
    // the start, the cycle and the stop of each group
    known: IndexSet<(u64, u64, u64)>,
    groups: Vec<Group>,
}

impl Group {
    // No job, which would be due at these tics.
    fn new(alloc: Global, times: Due) -> Self
        ensures times { result.times ≡ times }
        ensures places { result.places.items ≡ [] }
        ensures jobs { result.jobs.items ≡ [] }
    {
        Group {
            times,
            places: Vec::new(alloc),
            jobs: Vec::new(alloc),
        }
    }

    // Adds a job at the end.
    fn add(&mut self, place: u32, job: JobId) -> Result<(), AllocError>
        ensures times { self.new.times ≡ self.old.times }
        ensures places { OnOk result (self.new.places.items ≡ self.old.places.items ++ place ∷ []) }
        ensures jobs { OnOk result (self.new.jobs.items ≡ self.old.jobs.items ++ job ∷ []) }
    {
        self.places.push(place)?;
        self.jobs.push(job)?;
        Ok(())
    }
}

impl Grouping {
    // The number of the group of these times, which is made where there is none.
    fn group_of(&mut self, times: Due) -> Result<usize, AllocError>
        requires range { IsInRange times }
        requires known { self.old.known.keys ≡ keys_of (times_by self.old.groups.items) }
        ensures known { OnOk result (self.new.known.keys ≡ keys_of (times_by self.new.groups.items)) }
        ensures groups { (jobs : List Job) (ids : List JobIdOf) (end : ℕ)
            → AreGroups jobs ids end self.old.groups.items → OnOk result (AreGroups jobs ids end self.new.groups.items) }
        ensures jobs { IfOk result (λ at. (jobs : List Job) (ids : List JobIdOf) (end : ℕ)
            → HaveJobs jobs ids end self.old.groups.items → HaveJobsBut jobs ids end self.new.groups.items at) }
        ensures count { OnOk result (length self.new.groups.items ≤ length self.old.groups.items + 1) }
        ensures within { IfOk result (λ at. at < length self.new.groups.items) }
        ensures times { IfOk result (λ at. HasTimes times at self.new.groups.items) }
    {
        let (at, is_new) = match self
            .known
            .insert_full((times.start, times.cycle, times.stop))
        {
            Ok(found) => found,
            Err(_) => return Err(AllocError),
        };
        if is_new {
            self.groups.push(Group::new(self.alloc, times))?;
        }
        Ok(at)
    }

    // Adds the next job of a list.
    fn add(&mut self, times: Due, place: u32, job: JobId) -> Result<(), AllocError>
        requires range { IsInRange times }
        requires known { self.old.known.keys ≡ keys_of (times_by self.old.groups.items) }
        ensures known { OnOk result (self.new.known.keys ≡ keys_of (times_by self.new.groups.items)) }
        ensures groups { (jobs : List Job) (ids : List JobIdOf)
            → AreGroups jobs ids place self.old.groups.items → job.0 ≡ id_at ids place
            → times ≡ times_of jobs ids place → OnOk result (AreGroups jobs ids (place + 1) self.new.groups.items) }
        ensures jobs { (jobs : List Job) (ids : List JobIdOf) → HaveJobs jobs ids place self.old.groups.items
            → times ≡ times_of jobs ids place → OnOk result (HaveJobs jobs ids (place + 1) self.new.groups.items) }
        ensures count { OnOk result (length self.new.groups.items ≤ length self.old.groups.items + 1) }
    {
        let at = self.group_of(times)?;
        self.groups[at].add(place, job)?;
        Ok(())
    }
}

/// The groups of these jobs, by the first job of each.
pub fn groups_of(alloc: Global, plan: &Plan, jobs: &[JobId]) -> Result<Vec<Group>, AllocError>
    requires scheduled { AreScheduled plan.now.program.jobs jobs.now }
    requires few { length jobs.now ≤ 65536 }
    ensures groups { IfOk result (λ groups. AreGroups plan.now.program.jobs jobs.now (length jobs.now) groups.items) }
    ensures jobs { IfOk result (λ groups. HaveJobs plan.now.program.jobs jobs.now (length jobs.now) groups.items) }
    ensures few { IfOk result (λ groups. length groups.items ≤ length jobs.now) }
{
    let mut grouping = Grouping {
        alloc,
        known: IndexSet::new(alloc),
        groups: Vec::new(alloc),
    };
    for place in 0..jobs.len() {
        let job = jobs[place];
        grouping.add(times(plan, job), place as u32, job)?;
    }
    let Grouping { groups, .. } = grouping;
    Ok(groups)
}
