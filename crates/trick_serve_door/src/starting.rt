//! How the acceptor is started in a thread of its own.
//!
//! Where the system refuses the thread it hands back the closure that was to run there, and nothing gets a value out
//! of a closure but a call of it. So the closure gives its work back where a flag is set, and the flag is set only once
//! the thread was refused.

ghost use Rattle.std.specs.Prelude.{◌≡◌, ◌≤◌, IfErr, IfOk};
ghost use Rattle.trick_outside.specs.Causes.{Rose};
ghost use Rattle.trick_serve_seats.specs.Accepted.{HasAccepted};
ghost use Rattle.trick_serve_seats.specs.Taking.{hosts, start_of};
ghost use Rattle.trick_serve_door.specs.Running.{MatchOutcome, MatchRunning};

use crate::{Accepting, AcceptorThread, Accepts, Outcome, RunningAcceptor, Taken, accept};
use std::alloc::Global;
use std::snapshot::Snapshot;
use std::sync::atomic::{AtomicBool, Ordering};
use std::sync::{Arc, Wait};
use std::thread;
use std::thread::Threads;
use trick_outside::{Door, Spawner};

// Accepts, or gives the work back where it is wanted back.
fn go<D: Door + Drop, S: Spawner + Drop, R: Threads + Wait + Copy + Send + Drop + 'static>(
    wanted_back: Arc<AtomicBool, Global>,
    work: Accepting<D, S, R>,
) -> Outcome<Accepting<D, S, R>, Taken<D, S>>
where
    D::In: Send + Drop + 'static,
    D::Out: Send + Drop + 'static,
    ensures { MatchOutcome result
        (λ taken. HasAccepted (hosts D.visited D.In.LinkIn D.Out.LinkOut S.failures D.has_client)
        (start_of work.door work.spawner work.coming work.gone)
        taken.door taken.spawner taken.coming taken.gone taken.sessions.items)
        (λ back. back ≡ work) }
{
    if wanted_back.load(Ordering::SeqCst) {
        Outcome::Back(work)
    } else {
        Outcome::Done(accept(work))
    }
}

// Starts an acceptor in a thread. Where no thread can be made this very work comes back.
fn begin<
    D: Door + Send + Drop + 'static,
    S: Spawner + Send + Drop + 'static,
    R: Threads + Wait + Copy + Send + Drop + 'static,
>(
    wanted_back: Arc<AtomicBool, Global>,
    work: Accepting<D, S, R>,
) -> Result<RunningAcceptor<AcceptorThread<D, S, R>, Taken<D, S>>, Accepting<D, S, R>>
where
    D::In: Send + Drop + 'static,
    D::Out: Send + Drop + 'static,
    ensures started { IfOk result (λ running. MatchRunning running (λ thread. thread.promise.work.value ≡ work)
        (λ taken. HasAccepted (hosts D.visited D.In.LinkIn D.Out.LinkOut S.failures D.has_client)
        (start_of work.door work.spawner work.coming work.gone)
        taken.door taken.spawner taken.coming taken.gone taken.sessions.items)) }
    ensures back { IfErr result (λ back. back ≡ work) }
{
    let rt = work.rt;
    let Ok(theirs) = Arc::try_clone(&wanted_back) else {
        return Err(work);
    };
    let promise = Accepts {
        work: Snapshot::of(&work),
    };
    match thread::spawn_with(&rt, promise, move || go(theirs, work)) {
        Ok(child) => Ok(RunningAcceptor::There(child)),
        Err(refused) => {
            wanted_back.store(true, Ordering::SeqCst);
            match (refused.value)() {
                Outcome::Back(work) => Err(work),
                Outcome::Done(taken) => Ok(RunningAcceptor::Here(taken)),
            }
        }
    }
}

/// Starts an acceptor in a thread of its own, where its spawner admits it.
///
/// Where it is refused this very work comes back, and nothing was done but that the count of its spawner rose: the
/// spawner did not admit it, or no thread could be made, or there was no memory. Where it was started, it runs with
/// the spawner as the admission left it.
pub fn start_accepting<
    D: Door + Send + Drop + 'static,
    S: Spawner + Send + Drop + 'static,
    R: Threads + Wait + Copy + Send + Drop + 'static,
>(
    work: Accepting<D, S, R>,
) -> Result<RunningAcceptor<AcceptorThread<D, S, R>, Taken<D, S>>, Accepting<D, S, R>>
where
    D::In: Send + Drop + 'static,
    D::Out: Send + Drop + 'static,
    ensures started { IfOk result (λ running. (admitted : S) × (S.failures work.spawner ≤ S.failures admitted)
        × MatchRunning running (λ thread. thread.promise.work.value ≡ record work { spawner = admitted })
        (λ taken. HasAccepted (hosts D.visited D.In.LinkIn D.Out.LinkOut S.failures D.has_client)
        (start_of work.door admitted work.coming work.gone)
        taken.door taken.spawner taken.coming taken.gone taken.sessions.items)) }
    ensures back { IfErr result (λ back. back ≡ record work { spawner = back.spawner }) }
    ensures cause { IfErr result (λ back. Rose (S.failures work.spawner) (S.failures back.spawner)) }
    ensures later { IfErr result (λ back. S.failures work.spawner ≤ S.failures back.spawner) }
{
    let mut work = work;
    if !work.spawner.admits() {
        return Err(work);
    }
    let Ok(wanted_back) = Arc::new(work.alloc, AtomicBool::new(false)) else {
        work.spawner.refuse();
        return Err(work);
    };
    match begin(wanted_back, work) {
        Ok(running) => Ok(running),
        Err(back) => {
            let mut back = back;
            back.spawner.refuse();
            Err(back)
        }
    }
}
