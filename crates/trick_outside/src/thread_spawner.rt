ghost use Rattle.std.specs.Prelude.{◌≡◌, false, true};
ghost use Rattle.trick_outside.specs.Causes.{HasCause};

use crate::Spawner;

/// A spawner that admits each start, and counts those that the system refused.
#[derive(Debug, Drop)]
pub struct ThreadSpawner {
    faults: u64,
}

impl ThreadSpawner {
    /// A spawner that has refused no start yet.
    pub fn new() -> ThreadSpawner
        ensures { ⟦<ThreadSpawner as Spawner>⟧.failures result ≡ 0 }
    {
        ThreadSpawner { faults: 0 }
    }
}

impl Spawner for ThreadSpawner {
    ghost failures = { λ spawner. spawner.faults };

    fn admits(&mut self) -> bool
        ensures cause { HasCause self.old.faults self.new.faults (result ≡ false) }

        // What this form promises beyond the trait.
        ensures admitted { result ≡ true }
    {
        true
    }

    fn refuse(&mut self) {
        self.faults = self.faults.saturating_add(1);
    }

    fn faults(&self) -> u64 {
        self.faults
    }
}
