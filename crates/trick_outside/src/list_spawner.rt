ghost use Rattle.std.specs.Prelude.{◌≡◌, ◌↔◌, false};
ghost use Rattle.trick_outside.specs.Causes.{HasCause};

use crate::Spawner;
use crate::fault_plan::FaultPlan;

/// A spawner that refuses the starts of a list, and admits every other.
#[derive(Debug, Drop)]
pub struct ListSpawner {
    plan: FaultPlan,
    faults: u64,
}

impl ListSpawner {
    ghost use Rattle.trick_outside.specs.FaultPlan.{IsFresh};

    /// A spawner that refuses the starts of these numbers, the first start being number 0.
    pub fn refusing(starts: Vec<u64>) -> ListSpawner
        ensures none { ⟦<ListSpawner as Spawner>⟧.failures result ≡ 0 }
        ensures refused { IsFresh result.plan starts.items }
    {
        ListSpawner {
            plan: FaultPlan::at(starts),
            faults: 0,
        }
    }
}

impl Spawner for ListSpawner {
    ghost use Rattle.trick_outside.specs.FaultPlan.{CountsOne, FailsNext};

    ghost failures = { λ spawner. spawner.faults };

    fn admits(&mut self) -> bool
        ensures cause { HasCause self.old.faults self.new.faults (result ≡ false) }

        // What this form promises beyond the trait.
        ensures refused { (result ≡ false) ↔ FailsNext self.old.plan }
        ensures counted { CountsOne self.old.plan self.new.plan }
    {
        if self.plan.fails() {
            self.faults = self.faults.saturating_add(1);
            return false;
        }
        true
    }

    fn refuse(&mut self) {
        self.faults = self.faults.saturating_add(1);
    }

    fn faults(&self) -> u64 {
        self.faults
    }
}
