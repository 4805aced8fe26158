//! The jobs of several groups, in key order.
ghost use Rattle.std.specs.Prelude.{◌≡◌, ◌++◌, ◌+◌, ◌<◌, ◌≤◌, [], IfOk, length, map, vec_capacity, vec_len};
ghost use Rattle.std.specs.List.Sorted.{IsNonDecreasing, IsPermutation};
ghost use Rattle.trick_model.specs.Valid.{ids};
ghost use Rattle.trick_queue.specs.Merged.{AreThere, HasRoom, gathered};
ghost use Rattle.trick_queue.specs.Line.{id_at};

use crate::group::Group;
use std::alloc::{AllocError, Global};
use trick_lang::JobId;

/// The jobs of some groups together, in key order. It is kept, since the same groups are often due together again.
#[derive(Drop)]
pub struct Merge {
    /// The groups.
    pub groups: Vec<u32>,
    /// The places of their jobs, by rising number.
    pub places: Vec<u32>,
    /// Their jobs, in key order.
    pub jobs: Vec<JobId>,
}

// Adds places at the end.
fn append(places: &mut Vec<u32>, more: &[u32])
    requires { length places.old.items + length more.now ≤ vec_capacity places.old }
    ensures items { places.new.items ≡ places.old.items ++ more.now }
    ensures capacity { vec_capacity places.new ≡ vec_capacity places.old }
{
    for place in more {
        places.push_reserved(*place);
    }
}

// Puts the places of some groups together.
fn gather(groups: &[Group], of: &[u32], places: &mut Vec<u32>)
    requires there { AreThere of.now (length groups.now) }
    requires empty { places.old.items ≡ [] }
    requires room { length (gathered groups.now of.now) ≤ vec_capacity places.old }
    ensures items { places.new.items ≡ gathered groups.now of.now }
    ensures capacity { vec_capacity places.new ≡ vec_capacity places.old }
{
    for group in of {
        append(places, &groups[*group as usize].places);
    }
}

// The jobs at these places.
fn find(jobs: &[JobId], places: &[u32], found: &mut Vec<JobId>)
    requires there { AreThere places.now (length jobs.now) }
    requires empty { found.old.items ≡ [] }
    requires room { length places.now ≤ vec_capacity found.old }
    ensures jobs { ids found.new.items ≡ map (id_at jobs.now) places.now }
    ensures capacity { vec_capacity found.new ≡ vec_capacity found.old }
{
    for place in places {
        found.push_reserved(jobs[*place as usize]);
    }
}

impl Merge {
    // No group, with room for so many groups and jobs. This call alone takes memory.
    pub(crate) fn new(alloc: Global, groups: usize, jobs: usize) -> Result<Self, AllocError>
        ensures groups { IfOk result (λ merge. merge.groups.items ≡ []) }
        ensures jobs { IfOk result (λ merge. merge.jobs.items ≡ []) }
        ensures room { IfOk result (λ merge. HasRoom merge groups jobs) }
    {
        Ok(Merge {
            groups: Vec::with_capacity(alloc, groups)?,
            places: Vec::with_capacity(alloc, jobs)?,
            jobs: Vec::with_capacity(alloc, jobs)?,
        })
    }

    // Puts the jobs of these groups together. It takes no memory.
    pub(crate) fn make(&mut self, jobs: &[JobId], groups: &[Group], of: &[u32])
        requires room { HasRoom self.old (length groups.now) (length jobs.now) }
        requires many { length of.now ≤ length groups.now }
        requires there { AreThere of.now (length groups.now) }
        requires few { length (gathered groups.now of.now) ≤ length jobs.now }
        requires places { AreThere (gathered groups.now of.now) (length jobs.now) }
        ensures room { HasRoom self.new (length groups.now) (length jobs.now) }
        ensures groups { self.new.groups.items ≡ of.now }
        ensures places { IsPermutation (gathered groups.now of.now) self.new.places.items }
        ensures rising { IsNonDecreasing self.new.places.items }
        ensures jobs { ids self.new.jobs.items ≡ map (id_at jobs.now) self.new.places.items }
    {
        self.groups.clear();
        append(&mut self.groups, of);
        self.places.clear();
        gather(groups, of, &mut self.places);
        self.places.sort_unstable();
        self.jobs.clear();
        find(jobs, &self.places, &mut self.jobs);
    }
}
