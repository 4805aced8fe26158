ghost use Rattle.std.specs.Prelude.{◌≡◌, ◌↔◌, ◌+◌, ◌-◌, ◌^◌, Contains, IsTrue, false, min, true};
ghost use Rattle.trick_outside.specs.Causes.{HasCause};

use std::alloc::Global;

/// Which calls of a form in memory are to fail, how many were made, and how many have failed.
#[derive(Debug, Drop)]
pub struct FaultPlan {
    failing: Vec<u64>,
    calls: u64,
    faults: u64,
}

impl FaultPlan {
    ghost use Rattle.trick_outside.specs.FaultPlan.{IsFresh, IsQuiet};

    /// No call is to fail.
    pub fn never(alloc: Global) -> FaultPlan
        ensures { IsQuiet result }
    {
        FaultPlan::at(Vec::new(alloc))
    }

    /// The calls of these numbers are to fail. The first call has number 0.
    pub fn at(failing: Vec<u64>) -> FaultPlan
        ensures { IsFresh result failing.items }
    {
        FaultPlan {
            failing,
            calls: 0,
            faults: 0,
        }
    }

    /// Counts a call, and says whether it is to fail.
    pub fn fails(&mut self) -> bool
        ensures answer { IsTrue result ↔ Contains self.old.failing.items self.old.calls }
        ensures counted { self.new.calls ≡ min (self.old.calls + 1) (2 ^ 64 - 1) }
        ensures cause { HasCause self.old.faults self.new.faults (result ≡ true) }
        ensures still { result ≡ false → self.new.faults ≡ self.old.faults }
        ensures failing { self.new.failing ≡ self.old.failing }
        ensures quiet { IsQuiet self.old → IsQuiet self.new }
        ensures never { IsQuiet self.old → result ≡ false }
    {
        let call = self.calls;
        self.calls = self.calls.saturating_add(1);
        let fails = self.failing.contains(&call);
        if fails {
            self.faults = self.faults.saturating_add(1);
        }
        fails
    }

    /// How many calls have failed; it stands still at 2^64 - 1.
    pub fn faults(&self) -> u64
        ensures { result ≡ self.now.faults }
    {
        self.faults
    }
}
