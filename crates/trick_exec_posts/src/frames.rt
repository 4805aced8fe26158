//! Where cycles end, and what a thread has to do until then.

ghost use Rattle.std.specs.Prelude.{◌≡◌, ◌+◌, ◌≤◌};
ghost use Rattle.trick_exec_posts.specs.Flight.{end_of as end_of_cycle, frame_to as frame_to_end, work_at as work_of};
ghost use Rattle.trick_model.specs.Beside.{ends_at as ends_of};
ghost use Rattle.trick_base.specs.Time.{tic_limit};
ghost use Rattle.trick_model.specs.Valid.{IsCycle};

use trick_base::TIC_LIMIT;
use trick_model::{Process, Thread};
use trick_post_work::Job1;

// The first tic from one on at which a cycle ends.
fn end_of(cycle: u64, tic: u64) -> u64
    requires cycle { IsCycle cycle }
    requires tic { tic ≤ tic_limit + 1 }
    ensures { result ≡ end_of_cycle cycle tic }
{
    let past = tic % cycle;
    if past == 0 { tic } else { tic + (cycle - past) }
}

// The tics of the cycle that ends at a tic, up to the last time; at tic 0 none.
fn frame_to(cycle: u64, end: u64) -> Job1
    ensures { result ≡ frame_to_end cycle end }
{
    if end == 0 {
        return Job1::Frame { first: 1, last: 0 };
    }
    Job1::Frame {
        first: end.saturating_sub(cycle),
        last: (end - 1).min(TIC_LIMIT),
    }
}

/// What a thread has to do that was given its record before a tic: a must-finish thread the tics of the
/// cycle that ends there or next, and an asynchronous thread a round.
pub(crate) fn work_at(thread: Thread, tic: u64) -> Job1
    requires cycle { IsCycle thread.cycle }
    requires tic { tic ≤ tic_limit + 1 }
    ensures { result ≡ work_of thread tic }
{
    match thread.process {
        Process::Scheduled | Process::Async => Job1::Round,
        Process::MustFinish => frame_to(thread.cycle, end_of(thread.cycle, tic)),
    }
}

/// Whether the cycle of a must-finish thread ends at a tic.
pub(crate) fn ends_at(tic: u64, thread: Thread) -> bool
    requires { IsCycle thread.cycle }
    ensures { result ≡ ends_of tic thread }
{
    match thread.process {
        Process::Scheduled | Process::Async => false,
        Process::MustFinish => tic % thread.cycle == 0,
    }
}
