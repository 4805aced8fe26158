//! Runs of the plans by threads, without clients. Each writes what the run on one thread writes.

use crate::gates::{Meeting, Shaking, Trial};
use crate::plans::Texts;
use crate::runs::{Alone, Came, Outside, RIGHT, by_one_thread, serve};
use crate::thread_plans::{CLERKS, EIGHT};
use std::alloc::Global;
use std::collections::VecDeque;
use std::process::Abort;
use std::rt::Clock;
use std::sync::{Arc, Wait};
use std::thread::Threads;
use std::time::Instant;
use trick_outside::ScriptDoor;

/// Runs of the plan with must-finish threads under a gate that shakes.
const CLERK_RUNS: u64 = 200;

/// Runs under a gate that shakes, if there is time for so many.
const RUNS: u64 = 1_000;

/// The runs that there is always time for.
const FEW: u64 = 20;

/// Seconds after which no further run begins.
const ENOUGH: u64 = 30;

/// Seconds in which all these runs end, also beside much other work.
const SECONDS: u64 = 50;

/// What is seen of a run.
#[derive(Drop)]
pub(crate) struct Seen {
    pub(crate) came: Came,
    /// Two workers were between take and commit at one moment.
    have_met: bool,
    /// No worker is left that has the gate.
    pub(crate) is_over: bool,
}

/// What is outside of a run without clients: a gate, and starts that are refused, by their numbers.
pub(crate) fn without_clients<C: Clock>(
    alloc: Global,
    gate: Trial<C>,
    refused: Vec<u64>,
) -> Outside<C> {
    Outside {
        door: ScriptDoor::new(alloc, VecDeque::new(alloc)),
        shelf: Vec::new(alloc),
        sink: Vec::new(alloc),
        starts: refused,
        gate,
    }
}

// A run whose workers wait for one another between take and commit. Starts of these numbers are refused.
fn meet<R>(rt: R, texts: Texts, refused: Vec<u64>) -> Seen
where
    R: Threads + Wait + Clock + Abort + AllocGlobal + Copy + Send + Sync + Drop + 'static,
{
    let alloc = rt.alloc();
    let mut gate = Arc::new(alloc, Meeting::new()).expect(&rt, "memory");
    let trial = Trial::Meet(Arc::try_clone(&gate).expect(&rt, "memory"));
    let came = serve(rt, texts, without_clients(alloc, trial, refused));
    let have_met = gate.have_met();
    Seen {
        came,
        have_met,
        is_over: Arc::get_mut(&mut gate).is_some(),
    }
}

/// A run under a gate that shakes, beginning with this number.
pub(crate) fn shake<R>(rt: R, texts: Texts, first: u64) -> Seen
where
    R: Threads + Wait + Clock + Abort + AllocGlobal + Copy + Send + Sync + Drop + 'static,
{
    let alloc = rt.alloc();
    let mut gate = Arc::new(alloc, Shaking::new(rt, first)).expect(&rt, "memory");
    let trial = Trial::Shake(Arc::try_clone(&gate).expect(&rt, "memory"));
    let came = serve(rt, texts, without_clients(alloc, trial, Vec::new(alloc)));
    Seen {
        came,
        have_met: false,
        is_over: Arc::get_mut(&mut gate).is_some(),
    }
}

/// Whether two workers are between take and commit at one moment.
#[derive(Clone, Copy)]
enum Meets {
    /// They have to be.
    Must,
    /// They cannot be.
    Never,
    /// They may be.
    May,
}

/// The starts of a run that are refused, by their numbers, and what is wanted of its workers.
#[derive(Clone, Copy)]
struct Start {
    refused: &'static [u64],
    meets: Meets,
}

// What is wrong with the threads of a run of which so many starts were refused, or that nothing is.
fn wrong_threads(seen: &Seen, refused: usize, meets: Meets) -> &'static str {
    if seen.came.failed.starts != refused as u64 {
        return "how many starts failed";
    }
    if !seen.is_over {
        return "a worker is left";
    }
    match meets {
        Meets::Must if !seen.have_met => "no two workers at one moment",
        Meets::Never if seen.have_met => "two workers at one moment",
        _ => RIGHT,
    }
}

// What is wrong with a run, which has to write what one thread writes.
fn wrong_run<R: Abort>(
    rt: &R,
    seen: &Seen,
    wanted: &Alone,
    refused: usize,
    meets: Meets,
) -> &'static str {
    let wrong = wrong_threads(seen, refused, meets);
    if wrong != RIGHT || seen.came.is(wanted).expect(rt, "memory") {
        return wrong;
    }
    "its files"
}

// What is wrong with a run whose workers wait for one another.
fn wrong_meeting<R>(rt: R, texts: Texts, wanted: &Alone, start: Start) -> &'static str
where
    R: Threads + Wait + Clock + Abort + AllocGlobal + Copy + Send + Sync + Drop + 'static,
{
    let refused = Vec::from_slice(rt.alloc(), start.refused).expect(&rt, "memory");
    let seen = meet(rt, texts, refused);
    let wrong = wrong_run(&rt, &seen, wanted, start.refused.len(), start.meets);
    drop(seen);
    wrong
}

// What is wrong with a run under a gate that shakes, beginning with this number.
fn wrong_shaking<R>(rt: R, texts: Texts, wanted: &Alone, first: u64) -> &'static str
where
    R: Threads + Wait + Clock + Abort + AllocGlobal + Copy + Send + Sync + Drop + 'static,
{
    let seen = shake(rt, texts, first);
    let wrong = wrong_run(&rt, &seen, wanted, 0, Meets::May);
    drop(seen);
    wrong
}

// Whether the log of group g begins so.
fn has_log(run: &Alone, front: &[u8]) -> bool {
    run.file(b"log_g.csv").unwrap_or(&[]).starts_with(front)
}

#[test]
fn workers_meet_where_threads_start(rt: HostRuntime) {
    let wanted = by_one_thread(rt.alloc(), EIGHT).expect(&rt, "memory");
    // Of seven workers, and who takes the clients: all, none, and three workers.
    let starts = [
        Start {
            refused: &[],
            meets: Meets::Must,
        },
        Start {
            refused: &[0, 1, 2, 3, 4, 5, 6, 7],
            meets: Meets::Never,
        },
        Start {
            refused: &[0, 2, 4, 6],
            meets: Meets::Must,
        },
    ];
    for start in starts {
        let wrong = wrong_meeting(rt, EIGHT, &wanted, start);
        assert!(rt;
            wrong == RIGHT,
            "{} are refused: {wrong}",
            start.refused.len()
        );
    }
    drop(wanted);
}

#[test]
fn every_run_writes_the_same_files(rt: HostRuntime) {
    let begin = Instant::now(&rt).ok().expect(&rt, "a clock");
    let wanted = by_one_thread(rt.alloc(), EIGHT).expect(&rt, "memory");
    assert!(rt; wanted.status == 4, "some job divides by zero");
    let has_log = has_log(&wanted, b"tic,a.x\n0,1120934\n");
    assert!(rt; has_log, "the first cell after a tic, by hand");
    assert!(rt; wanted.file(b"chkpnt_2.chk").is_some(), "a checkpoint");
    for run in 0..RUNS {
        let wrong = wrong_shaking(rt, EIGHT, &wanted, run);
        assert!(rt; wrong == RIGHT, "run {run}: {wrong}");
        let took = begin.elapsed(&rt).ok().expect(&rt, "a clock").as_secs();
        assert!(rt; took < SECONDS, "run {run} hangs");
        if took >= ENOUGH && run >= FEW {
            break;
        }
    }
    drop(wanted);
}

#[test]
fn clerks_meet_where_threads_start(rt: HostRuntime) {
    let wanted = by_one_thread(rt.alloc(), CLERKS).expect(&rt, "memory");
    assert!(rt; wanted.status == 0, "no job faults");
    let has_log = has_log(&wanted, b"tic,m.sum,n.sum\n0,0,0\n1,0,0\n");
    assert!(rt; has_log, "nothing is published before a cycle ends");
    // Of a worker, two clerks, and who takes the clients: all, so that a clerk is at work beside another one or beside
    // a worker; none; and one of the three.
    let starts = [
        Start {
            refused: &[],
            meets: Meets::Must,
        },
        Start {
            refused: &[0, 1, 2, 3],
            meets: Meets::Never,
        },
        Start {
            refused: &[0, 2],
            meets: Meets::May,
        },
    ];
    for start in starts {
        let wrong = wrong_meeting(rt, CLERKS, &wanted, start);
        assert!(rt;
            wrong == RIGHT,
            "{} are refused: {wrong}",
            start.refused.len()
        );
    }
    drop(wanted);
}

#[test]
fn every_run_with_clerks_writes_the_same_files(rt: HostRuntime) {
    let wanted = by_one_thread(rt.alloc(), CLERKS).expect(&rt, "memory");
    assert!(rt; wanted.file(b"chkpnt_8.chk").is_some(), "a checkpoint");
    for run in 0..CLERK_RUNS {
        let wrong = wrong_shaking(rt, CLERKS, &wanted, run);
        assert!(rt; wrong == RIGHT, "run {run}: {wrong}");
    }
    drop(wanted);
}
