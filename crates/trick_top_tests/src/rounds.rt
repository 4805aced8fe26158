//! Runs with asynchronous threads: what they are published when is told by the journal that the run leaves.

use crate::gates::{HELD_FRAMES, Holding, Trial};
use crate::runs::{Alone, Came, RIGHT, by_one_thread, replays, serve};
use crate::thread_plans::{HELD, ROUNDS};
use crate::threads::{Seen, shake, without_clients};
use std::alloc::{AllocError, Global};
use std::process::Abort;
use std::rt::Clock;
use std::sync::{Arc, Wait};
use std::thread::Threads;

/// Runs under a gate that shakes.
const RUNS: u64 = 200;

// Whether the round of thread 1 is published in this turn.
fn is_published(alloc: Global, came: &Came, turn: u64) -> Result<bool, AllocError> {
    let line = format!(in alloc; "\n{turn} publish 1\n")?;
    Ok(came.notes(line.as_bytes()))
}

// A run whose clerk of thread 1 is held, and whether it was held while the run went on.
fn held<R>(rt: R) -> (Came, bool)
where
    R: Threads + Wait + Clock + Abort + AllocGlobal + Copy + Send + Sync + Drop + 'static,
{
    let alloc = rt.alloc();
    let gate = Arc::new(alloc, Holding::new()).expect(&rt, "memory");
    let trial = Trial::Hold(Arc::try_clone(&gate).expect(&rt, "memory"));
    let came = serve(rt, HELD, without_clients(alloc, trial, Vec::new(alloc)));
    let was_held = gate.was_held();
    drop(gate);
    (came, was_held)
}

// What is wrong with a run whose clerk was held: nothing is published as long, then it is, and its journal gives its
// files.
fn wrong_held<R: Abort + AllocGlobal>(rt: &R, came: &Came) -> &'static str {
    for turn in 0..HELD_FRAMES {
        if is_published(rt.alloc(), came, turn).expect(rt, "memory") {
            return "it is published early";
        }
    }
    if !came.notes(b" publish 1\n") {
        return "it is not published";
    }
    if replays(rt.alloc(), HELD, came).expect(rt, "memory") {
        RIGHT
    } else {
        "its files"
    }
}

#[test]
fn a_clerk_that_is_held_publishes_later(rt: HostRuntime) {
    let (came, was_held) = held(rt);
    assert!(rt; came.status == 0 && was_held, "the run goes on meanwhile");
    let wrong = wrong_held(&rt, &came);
    drop(came);
    assert!(rt; wrong == RIGHT, "{wrong}");
}

// What is wrong with what is seen of a run: it has the logs of one thread, and its journal gives its files.
fn wrong_seen<R: Abort + AllocGlobal>(rt: &R, seen: &Seen, wanted: &Alone) -> &'static str {
    if seen.came.status != 0 || seen.came.failed.starts != 0 || !seen.is_over {
        return "its threads";
    }
    if Some(seen.came.file(b"log_g.csv")) != wanted.file(b"log_g.csv") {
        return "its log";
    }
    if replays(rt.alloc(), ROUNDS, &seen.came).expect(rt, "memory") {
        RIGHT
    } else {
        "its files"
    }
}

// What is wrong with a run under a gate that shakes.
fn wrong_rounds<R>(rt: R, wanted: &Alone, first: u64) -> &'static str
where
    R: Threads + Wait + Clock + Abort + AllocGlobal + Copy + Send + Sync + Drop + 'static,
{
    let seen = shake(rt, ROUNDS, first);
    let wrong = wrong_seen(&rt, &seen, wanted);
    drop(seen);
    wrong
}

#[test]
fn every_run_with_rounds_is_the_run_of_its_journal(rt: HostRuntime) {
    let wanted = by_one_thread(rt.alloc(), ROUNDS).expect(&rt, "memory");
    assert!(rt; wanted.status == 0, "no job faults");
    for run in 0..RUNS {
        let wrong = wrong_rounds(rt, &wanted, run);
        assert!(rt; wrong == RIGHT, "run {run}: {wrong}");
    }
    drop(wanted);
}
