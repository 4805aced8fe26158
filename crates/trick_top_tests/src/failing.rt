//! Runs of which calls of the forms outside fail: each call of each form in turn, and some of all of them by chance.

use crate::gates::Trial;
use crate::left::left;
use crate::links::TestIn;
use crate::plans::FROZEN;
use crate::runs::{Came, Failures, Outside, RIGHT, replays, serve};
use std::alloc::{AllocError, Global};
use std::collections::VecDeque;
use std::process::Abort;
use std::rt::Clock;
use std::sync::Wait;
use std::thread::Threads;
use trick_outside::{MemoryOut, MemorySink, ScriptDoor, ScriptIn};

/// What the client says: it watches the counter, asks for a checkpoint and lets the run go on.
const SAID: &[u8] = b"trick.var_add(\"counter.n\")
trick.var_add(\"counter.zz\")
trick.var_cycle(1.0)
trick.checkpoint()
trick.exec_run()
";

/// What it is sent.
const WATCHED: &[u8] = b"0\t1\tBAD_REF\n0\t2\tBAD_REF\n0\t3\tBAD_REF\n";

/// What a client is sent that watches the counter alone.
const COUNT: &[u8] = b"0\t1\n0\t2\n0\t3\n";

/// More calls than a run makes of any form.
const MOST_CALLS: u64 = 200;

/// Runs of which calls fail by chance.
const RUNS: u64 = 200;

/// Which calls fail, from 0.
#[derive(Drop)]
struct Failing {
    shelf: Vec<u64>,
    sink: Vec<u64>,
    door: Vec<u64>,
    idle: Vec<u64>,
    starts: Vec<u64>,
    reads: Vec<u64>,
    writes: Vec<u64>,
    /// The bytes that a read gives, and a write to the client takes, at most.
    most: usize,
}

impl Failing {
    // None.
    fn nothing(alloc: Global) -> Failing {
        Failing {
            shelf: Vec::new(alloc),
            sink: Vec::new(alloc),
            door: Vec::new(alloc),
            idle: Vec::new(alloc),
            starts: Vec::new(alloc),
            reads: Vec::new(alloc),
            writes: Vec::new(alloc),
            most: 1,
        }
    }
}

// What is outside of a run with one client.
fn outside<C: Clock>(alloc: Global, failing: Failing) -> Result<Outside<C>, AllocError> {
    let Failing {
        shelf,
        sink,
        door,
        idle,
        starts,
        reads,
        writes,
        most,
    } = failing;
    let most = most.max(1);
    let input = ScriptIn::failing(Vec::from_slice(alloc, SAID)?, reads).with_most(most);
    let output = MemoryOut::new(MemorySink::failing(alloc, writes).with_most(most));
    let mut clients = VecDeque::new(alloc);
    clients.push_back((TestIn::of(input), output))?;
    Ok(Outside {
        door: ScriptDoor::failing(alloc, clients, door).with_idle(idle),
        shelf,
        sink,
        starts,
        gate: Trial::Pass,
    })
}

/// What is seen of a run.
#[derive(Clone, Copy)]
struct Seen {
    status: u8,
    failed: Failures,
    /// How many bytes the client was sent.
    sent: usize,
    /// Whether the run went on.
    ran: bool,
    wrong: &'static str,
}

// What is seen of a run, and what is wrong with it.
fn seen_of(alloc: Global, came: &Came) -> Result<Seen, AllocError> {
    Ok(Seen {
        status: came.status,
        failed: came.failed,
        sent: came.sent().unwrap_or(&[]).len(),
        ran: came.notes(b" cmd 1 trick.exec_run()\n"),
        wrong: left(alloc, FROZEN, came, WATCHED)?,
    })
}

// A run of which these calls fail.
fn run_with<R: Threads + Wait + Clock + Abort + AllocGlobal + Copy + Send + Sync + Drop + 'static>(
    rt: R,
    failing: Failing,
) -> Seen {
    let alloc = rt.alloc();
    let came = serve(rt, FROZEN, outside(alloc, failing).expect(&rt, "memory"));
    let seen = seen_of(alloc, &came);
    drop(came);
    seen.expect(&rt, "memory")
}

// This call, and all that might come after it.
fn all_from(alloc: Global, call: u64) -> Result<Vec<u64>, AllocError> {
    let mut calls = Vec::new(alloc);
    for number in call..MOST_CALLS {
        calls.push(number)?;
    }
    Ok(calls)
}

#[test]
fn each_call_of_the_shelf_fails(rt: HostRuntime) {
    let alloc = rt.alloc();
    for call in 0..MOST_CALLS {
        let mut failing = Failing::nothing(alloc);
        failing.shelf = all_from(alloc, call).expect(&rt, "memory");
        let seen = run_with(rt, failing);
        assert!(rt; seen.wrong == RIGHT, "call {call}: {}", seen.wrong);
        if seen.failed.shelf == 0 {
            // The two texts are got; five files are made and added to, the log four times more, and the journal for the
            // lines and for its end.
            assert!(rt; call >= 18 && seen.status == 0, "all calls");
            return;
        }
    }
}

// What is seen of a run whose client's link gives so many bytes a read at most, and fails at this read.
fn after_read<
    R: Threads + Wait + Clock + Abort + AllocGlobal + Copy + Send + Sync + Drop + 'static,
>(rt: R, call: u64, most: usize) -> Seen {
    let mut failing = Failing::nothing(rt.alloc());
    failing.reads = vec![in rt.alloc(); call].expect(&rt, "memory");
    failing.most = most;
    run_with(rt, failing)
}

#[test]
fn each_read_of_a_client_fails(rt: HostRuntime) {
    for call in 0..=SAID.len() {
        let seen = after_read(rt, call as u64, 1);
        assert!(rt; seen.wrong == RIGHT, "read {call}: {}", seen.wrong);
        // A line counts once its line feed is read.
        assert!(rt;
            seen.status == 0 && seen.ran == (call == SAID.len()),
            "read {call}"
        );
    }
    for call in 0..2 {
        let seen = after_read(rt, call, 1000);
        assert!(rt; seen.wrong == RIGHT, "read {call}: {}", seen.wrong);
        assert!(rt;
            seen.status == 0 && seen.ran == (call == 1),
            "read {call} of all lines"
        );
    }
}

// A door with two clients. The first one watches the counter, and its link fails at this read.
fn door_of_two(alloc: Global, call: u64) -> Result<ScriptDoor<TestIn, MemoryOut>, AllocError> {
    let first = Vec::from_slice(alloc, b"trick.var_add(\"counter.n\")\n")?;
    let first = ScriptIn::failing(first, vec![in alloc; call]?);
    let second = ScriptIn::new(alloc, Vec::from_slice(alloc, SAID)?);
    let mut clients = VecDeque::new(alloc);
    clients.push_back((TestIn::of(first), MemoryOut::new(MemorySink::new(alloc))))?;
    clients.push_back((TestIn::of(second), MemoryOut::new(MemorySink::new(alloc))))?;
    Ok(ScriptDoor::new(alloc, clients))
}

// What is wrong with a run of two clients, of which the first one's link failed.
fn wrong_beside(alloc: Global, came: &Came) -> Result<&'static str, AllocError> {
    if came.status != 0 || !replays(alloc, FROZEN, came)? {
        return Ok("its end");
    }
    if came.sent_to(2) != Some(WATCHED) {
        return Ok("what the other client was sent");
    }
    match came.sent_to(1) {
        Some(sent) if COUNT.starts_with(sent) => {}
        _ => return Ok("what the client was sent"),
    }
    if came.has_other_leave(b"LinkFault") || came.notes(b" leave 2 ") {
        return Ok("another leave");
    }
    Ok(RIGHT)
}

// What is wrong with a run of two clients, of which the first one's link fails at this read.
fn beside<R: Threads + Wait + Clock + Abort + AllocGlobal + Copy + Send + Sync + Drop + 'static>(
    rt: R,
    call: u64,
) -> &'static str {
    let alloc = rt.alloc();
    let door = door_of_two(alloc, call).expect(&rt, "memory");
    let came = serve(rt, FROZEN, Outside::at(alloc, door));
    let wrong = wrong_beside(alloc, &came);
    drop(came);
    wrong.expect(&rt, "memory")
}

#[test]
fn a_link_that_fails_ends_its_session_alone(rt: HostRuntime) {
    for call in 0..2 {
        let wrong = beside(rt, call);
        assert!(rt; wrong == RIGHT, "read {call}: {wrong}");
    }
}

#[test]
fn each_write_to_a_client_fails(rt: HostRuntime) {
    let alloc = rt.alloc();
    for call in 0..=WATCHED.len() {
        let mut failing = Failing::nothing(alloc);
        failing.writes = all_from(alloc, call as u64).expect(&rt, "memory");
        let seen = run_with(rt, failing);
        assert!(rt; seen.wrong == RIGHT, "write {call}: {}", seen.wrong);
        assert!(rt;
            seen.status == 0 && seen.ran && seen.sent == call,
            "write {call}"
        );
    }
}

#[test]
fn each_call_of_the_door_fails(rt: HostRuntime) {
    let alloc = rt.alloc();
    // The call that fails, those before it at which no client has come, and whether a client is served before. Then the
    // run may be over before that call; else it waits for the door.
    let cases: [(u64, u64, bool); 6] = [
        (0, 0, false),
        (1, 0, true),
        (2, 0, true),
        (1, 1, false),
        (2, 1, true),
        (3, 1, true),
    ];
    for (call, idle, is_served) in cases {
        let mut failing = Failing::nothing(alloc);
        failing.door = all_from(alloc, call).expect(&rt, "memory");
        for number in 0..idle {
            failing.idle.push(number).expect(&rt, "memory");
        }
        let seen = run_with(rt, failing);
        assert!(rt; seen.wrong == RIGHT, "call {call}: {}", seen.wrong);
        assert!(rt;
            seen.status == 0 && seen.ran == is_served,
            "call {call}: who is served"
        );
        assert!(rt; is_served || seen.failed.door == 1, "call {call} fails");
        // After the only client the door has ended.
        assert!(rt;
            call < idle.saturating_add(2) || seen.failed.door == 0,
            "call {call} is not made"
        );
    }
}

#[test]
fn a_sink_that_fails_costs_no_file(rt: HostRuntime) {
    let alloc = rt.alloc();
    for fails in [true, false] {
        let mut failing = Failing::nothing(alloc);
        if fails {
            failing.sink = all_from(alloc, 0).expect(&rt, "memory");
        }
        let seen = run_with(rt, failing);
        assert!(rt; seen.wrong == RIGHT, "{}", seen.wrong);
        assert!(rt;
            seen.status == if fails { 8 } else { 0 } && seen.ran,
            "its status"
        );
    }
}

// A number that looks like chance, below another one.
fn chance(number: u64, below: u64) -> u64 {
    (number.wrapping_mul(0x9E37_79B9_7F4A_7C15) >> 40) % below.max(1)
}

// Calls of all forms that fail by chance, in the run of this number.
fn by_chance(alloc: Global, run: u64) -> Result<Failing, AllocError> {
    let number = run.wrapping_mul(6);
    let mut failing = Failing::nothing(alloc);
    failing.shelf = all_from(alloc, chance(number, 60))?;
    failing.sink = vec![in alloc; chance(number.wrapping_add(1), 3)]?;
    failing.door = all_from(alloc, chance(number.wrapping_add(2), 4))?;
    failing.starts = vec![in alloc; chance(number.wrapping_add(3), 9)]?;
    failing.reads = vec![in alloc; chance(number.wrapping_add(4), 300)]?;
    failing.writes = vec![in alloc; chance(number.wrapping_add(5), 80)]?;
    Ok(failing)
}

#[test]
fn calls_of_all_forms_fail_by_chance(rt: HostRuntime) {
    let alloc = rt.alloc();
    for run in 0..RUNS {
        let seen = run_with(rt, by_chance(alloc, run).expect(&rt, "memory"));
        assert!(rt; seen.wrong == RIGHT, "run {run}: {}", seen.wrong);
    }
}
