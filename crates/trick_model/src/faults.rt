ghost use Rattle.std.specs.Prelude.{◌+◌, ◌-◌, ◌^◌, ◌≡◌, ◌≤◌, [], IfOk, min};
ghost use Rattle.trick_model.specs.FaultList.{FaultList, kept, with_fault};

use std::alloc::{AllocError, Global};
use std::marker::Model;
use trick_lang::JobFault;

/// How many faults are kept.
pub const KEPT_FAULTS: usize = 1000;

/// The faults of a run: the first 1,000, and the count of all, which stands still at 2^64 - 1. The
/// room for them is made at once, so that none is lost for want of memory.
#[derive(Debug, Drop)]
pub struct Faults {
    count: u64,
    first: Vec<JobFault>,
}

impl Model for Faults {
    ghost use Rattle.std.specs.Prelude.{◌≡◌, ◌≤◌, length, min, vec_capacity};
    ghost use Rattle.trick_model.specs.FaultList.{FaultList, kept};

    ghost Value = { FaultList };

    ghost view = { λ f. record { count = f.count; first = f.first.items } };

    ghost invariant = { (λ f. (length f.first.items ≡ min f.count kept) × (kept ≤ vec_capacity f.first)) };
}

impl Faults {
    /// No faults.
    pub fn new(alloc: Global) -> Result<Self, AllocError>
        ensures { IfOk result (λ faults. faults ≡ record { count = 0; first = [] }) }
    {
        Ok(Faults {
            count: 0,
            first: Vec::with_capacity(alloc, KEPT_FAULTS)?,
        })
    }

    /// How many faults there were.
    pub fn count(&self) -> u64
        ensures { result ≡ self.now.count }
    {
        self.count
    }

    /// The first faults, at most 1,000.
    pub fn first(&self) -> &[JobFault]
        ensures { result.now ≡ self.now.first }
    {
        self.first.as_slice()
    }

    /// Adds a fault. Takes no memory.
    pub fn add(&mut self, fault: JobFault)
        ensures { self.new ≡ with_fault fault self.old }
    {
        if self.first.len() < KEPT_FAULTS {
            self.first.push_reserved(fault);
        }
        self.count = self.count.saturating_add(1);
    }

    /// Drops all faults, and keeps their room. Takes no memory.
    pub fn clear(&mut self)
        ensures { self.new ≡ record { count = 0; first = [] } }
    {
        self.count = 0;
        self.first.clear();
    }

    /// Counts `more` faults that are not kept, as where a list is made again from its text: there are
    /// 1,000 already. Takes no memory.
    pub fn count_more(&mut self, more: u64)
        requires { kept ≤ self.old.count }
        ensures { self.new ≡ record { count = min (self.old.count + more) (2 ^ 64 - 1); first = self.old.first } }
    {
        self.count = self.count.saturating_add(more);
    }
}
