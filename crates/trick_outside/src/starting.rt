//! How a work is started in a thread of its own.
//!
//! Where the system refuses a thread it hands back the closure that was to run there, and nothing gets a
//! value out of a closure but a call of it. So the closure gives its work back where a flag is set, and
//! the flag is set only once the thread was refused.
ghost use Rattle.std.specs.Prelude.{◌≡◌};
ghost use Rattle.trick_outside.specs.Causes.{HasCause};
ghost use Rattle.trick_outside.specs.Works.{IsRefused, MatchBegun, MatchRan, Runs};

use crate::{Begun, Promised, Ran, Running, Spawner, Work};
use std::alloc::Global;
use std::marker::PhantomData;
use std::snapshot::Snapshot;
use std::sync::Arc;
use std::sync::atomic::{AtomicBool, Ordering};
use std::thread;
use std::thread::Threads;

// A work for a thread, and whether it is wanted back. A closure for a thread has to name the type of the
// result.
#[derive(Drop)]
struct Task<W, O> {
    wanted_back: Arc<AtomicBool, Global>,
    work: W,
    result: PhantomData<O>,
}

// Does the work, or gives it back where it is wanted back.
fn go<W: Work>(task: Task<W, W::Out>) -> Ran<W>
    ensures { MatchRan result (λ out. W.promises task.work out) (λ work. work ≡ task.work) }
{
    let Task {
        wanted_back,
        work,
        ..
    } = task;
    if wanted_back.load(Ordering::SeqCst) {
        Ran::Back(work)
    } else {
        Ran::Out(work.run())
    }
}

// Starts a work in a thread. It is refused where no thread can be made, and where no memory is left.
fn begin<R: Threads, W: Work + 'static>(
    rt: &R,
    wanted_back: Arc<AtomicBool, Global>,
    work: W,
) -> Begun<W>
where
    W::Out: 'static,
    ensures { MatchBegun result (Runs W.promises work) (λ back. back ≡ work) }
{
    let Ok(theirs) = Arc::try_clone(&wanted_back) else {
        return Begun::Refused(work);
    };
    let promise = Promised {
        work: Snapshot::of(&work),
    };
    let task: Task<W, W::Out> = Task {
        wanted_back: theirs,
        work,
        result: PhantomData,
    };
    match thread::spawn_with(rt, promise, move || go(task)) {
        Ok(child) => Begun::Started(Running::There(child)),
        Err(refused) => {
            wanted_back.store(true, Ordering::SeqCst);
            match (refused.value)() {
                Ran::Back(work) => Begun::Refused(work),
                Ran::Out(out) => Begun::Started(Running::Here(out)),
            }
        }
    }
}

/// Starts a work in a thread of its own, where the spawner admits it.
///
/// `Started` keeps what the work promises, and `Refused` hands back this very work. It is refused only
/// where the spawner's count rose: the spawner did not admit it, or no thread could be made, or there
/// was no memory.
pub fn start<R: Threads, S: Spawner, W: Work + 'static>(
    rt: &R,
    alloc: Global,
    spawner: &mut S,
    work: W,
) -> Begun<W>
where
    W::Out: 'static,
    ensures work { MatchBegun result (Runs W.promises work) (λ back. back ≡ work) }
    ensures cause { HasCause (S.failures spawner.old) (S.failures spawner.new) (IsRefused result) }
{
    if !spawner.admits() {
        return Begun::Refused(work);
    }
    let Ok(wanted_back) = Arc::new(alloc, AtomicBool::new(false)) else {
        spawner.refuse();
        return Begun::Refused(work);
    };
    match begin(rt, wanted_back, work) {
        Begun::Started(running) => Begun::Started(running),
        Begun::Refused(work) => {
            spawner.refuse();
            Begun::Refused(work)
        }
    }
}
