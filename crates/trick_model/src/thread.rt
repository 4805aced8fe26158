ghost use Rattle.std.specs.Prelude.{◌≡◌};
ghost use Rattle.trick_model.specs.Plan.{is_async as is_async_of, is_beside as is_beside_of, is_in_tics as is_in_tics_of, process_in};

/// How the jobs of a thread run.
#[derive(Clone, Copy, Debug, PartialEq, Eq)]
pub enum Process {
    /// In each tic, with the jobs of the other scheduled threads.
    Scheduled,
    /// In rounds beside the tics, which are published at the top of a later run frame.
    Async,
    /// Beside the tics, and published where the thread's cycle ends.
    MustFinish,
}

impl Process {
    /// Whether such jobs run in the tics.
    pub fn is_in_tics(self) -> bool
        ensures { result ≡ is_in_tics_of self }
    {
        match self {
            Process::Scheduled => true,
            Process::Async | Process::MustFinish => false,
        }
    }

    /// Whether such jobs work beside the tics.
    pub fn is_beside(self) -> bool
        ensures { result ≡ is_beside_of self }
    {
        match self {
            Process::Scheduled => false,
            Process::Async | Process::MustFinish => true,
        }
    }

    /// Whether such jobs run in rounds.
    pub fn is_async(self) -> bool
        ensures { result ≡ is_async_of self }
    {
        match self {
            Process::Async => true,
            Process::Scheduled | Process::MustFinish => false,
        }
    }
}

/// A thread of a plan.
#[derive(Clone, Copy, Debug, PartialEq, Eq)]
pub struct Thread {
    /// From 0 to 15.
    pub number: u8,
    pub process: Process,
    /// The cycle of a must-finish thread, in tics, from 1 to 10^15; of no effect for others.
    pub cycle: u64,
    /// Whether the input names the thread, for a process type or a cycle.
    pub named: bool,
}

/// How the jobs of a thread run, by its number among threads; in the tics, where there is none of it.
pub fn process_of(threads: &[Thread], number: u8) -> Process
    ensures { result ≡ process_in threads.now number }
{
    for thread in threads {
        if thread.number == number {
            return thread.process;
        }
    }
    Process::Scheduled
}
