ghost use Rattle.std.specs.Prelude.{◌≡◌, ◌≢◌, ℕ, ◌+◌, ◌≤◌, List, [], ◌∷◌, ◌++◌, IsSome, Option, Some, None};
ghost use Rattle.trick_phase_jobs.specs.Belongs.{IsMemoryOf};
ghost use Rattle.trick_model.specs.FaultList.{with_faults};
ghost use Rattle.trick_model.specs.PlanOf.{plan_of};
ghost use Rattle.trick_base.specs.Time.{tic_limit};
ghost use Rattle.trick_model.specs.declared.plan.Plan.{Plan};
ghost use Rattle.trick_outside.specs.Causes.{Rose, RoseBy};
ghost use Rattle.trick_post_work.specs.Polls.{Poll, not_ready};
ghost use Rattle.trick_post_work.specs.Work.{CanStart, finished, Started};

use trick_lang::Cells;
use trick_model::{Faults, Taken};

/// What a thread beside the tics is to do.
#[derive(Clone, Copy, Debug, PartialEq, Eq)]
pub enum Job1 {
    /// A must-finish thread: its jobs that are due at the tics from `first` to `last`, at most 10^15;
    /// none where `first` is above `last`.
    Frame { first: u64, last: u64 },
    /// An asynchronous thread: each of its jobs once.
    Round,
}

/// Whether a round is done.
#[derive(Clone, Copy, Debug, PartialEq, Eq)]
pub enum Posted {
    Ready,
    NotYet,
}

/// Does the work of must-finish and asynchronous threads, in whatever way. What is published is what
/// one thread makes of what was handed in. No call takes memory.
pub trait Posts {
    /// The plan that the value was made for.
    ghost plan: { Self → Plan };

    /// What is started and not finished, by the number of the thread.
    ghost in_flight: { Self → ℕ → Option Started };

    /// How late rounds were: at least how often one that was asked for was not done.
    ghost lateness: { Self → ℕ };

    /// The value goes from the first state to the second by these polls.
    ghost asked: { Self → List Poll → Self → Type 0 };

    /// Hands a must-finish or asynchronous thread that has nothing in flight what it has to do.
    fn start(&mut self, thread: u8, taken: &Taken, work: Job1)
        requires right { CanStart (plan_of (plan self.old)) thread taken.now work }
        requires free { in_flight self.old thread ≡ None }
        ensures started { in_flight self.new thread ≡ Some (record { taken = taken.now; work = work }) }
        ensures others { (n : ℕ) → n ≢ thread → in_flight self.new n ≡ in_flight self.old n }
        ensures plan { plan self.new ≡ plan self.old }
        ensures late { lateness self.old ≤ lateness self.new }
        ensures asked { asked self.old [] self.new };

    /// Whether the round of a thread is done, asked for in this turn. Where it is not, `late` has risen.
    fn poll(&mut self, thread: u8, turn: u64) -> Posted
        requires started { IsSome (in_flight self.old thread) }
        ensures cause { result ≡ Posted.NotYet → Rose (lateness self.old) (lateness self.new) }
        ensures in_flight { (n : ℕ) → in_flight self.new n ≡ in_flight self.old n }
        ensures plan { plan self.new ≡ plan self.old }
        ensures late { lateness self.old ≤ lateness self.new }
        ensures asked { asked self.old (record { thread = thread; turn = turn; answer = result } ∷ []) self.new };

    /// At least how often a poll was answered by `NotYet`; it stands still at 2^64 - 1.
    fn late(&self) -> u64
        ensures { result ≡ lateness self.now };

    /// Publishes what a thread was handed, and may wait for it: each cell that one of the jobs that ran
    /// may write gets the number that their fold ends with, and their faults are added, with this tic,
    /// at most 10^15 + 1. Nothing of the thread is in flight then.
    fn finish<M: Cells>(&mut self, thread: u8, memory: &mut M, faults: &mut Faults, tic: u64)
        requires started { IsSome (in_flight self.old thread) }
        requires memory { IsMemoryOf (plan self.old).program (M.numbers memory.old) (M.scalars memory.old) }
        requires tic { tic ≤ tic_limit + 1 }
        ensures memory { M.numbers memory.new
            ≡ (finished (plan_of (plan self.old)) thread (in_flight self.old thread) tic
            (M.numbers memory.old)).memory }
        ensures scalars { M.scalars memory.new ≡ M.scalars memory.old }
        ensures faults { faults.new
            ≡ with_faults (finished (plan_of (plan self.old)) thread (in_flight self.old thread) tic
            (M.numbers memory.old)).faults faults.old }
        ensures finished { in_flight self.new thread ≡ None }
        ensures others { (n : ℕ) → n ≢ thread → in_flight self.new n ≡ in_flight self.old n }
        ensures plan { plan self.new ≡ plan self.old }
        ensures late { lateness self.old ≤ lateness self.new }
        ensures asked { asked self.old [] self.new };

    /// No call is the step of no polls.
    ghost asked_none: { (post : Self) → asked post [] post };

    /// Steps join.
    ghost asked_join: { (first second third : Self) (early late : List Poll)
        → asked first early second → asked second late third → asked first (early ++ late) third };

    /// `late` has risen by one at least for each poll that found nothing ready.
    ghost asked_late: { (old new : Self) (polls : List Poll)
        → asked old polls new → RoseBy (lateness old) (not_ready polls) (lateness new) };
}
