//! A hall that three threads share.
ghost use Rattle.std.specs.Prelude.{◌≡◌, IsSome, None, Some, false};
ghost use Rattle.trick_eval.specs.Bench.{IsFor as IsBenchFor};
ghost use Rattle.trick_hall_kept.specs.Histories.{has_shut};
ghost use Rattle.trick_hall_kept.specs.Openings.{opened_at};
ghost use Rattle.trick_phase_jobs.specs.Belongs.{IsMemoryOf};
ghost use Rattle.trick_queue.specs.Queue.{IsFor as IsQueueFor};
ghost use Rattle.trick_turn.specs.Passes.{own};

use crate::drive::{Done, Worker, drive};
use std::alloc::Global;
use std::marker::Brand;
use std::process::Abort;
use std::sync::Wait;
use std::thread::Threads;
use trick_hall::{Chief, Hall, Hand};
use trick_lang::{Cell, Cells};
use trick_memory::Memory;
use trick_model::{Accepted, Faults, Planned};
use trick_phase_board::Closed;
use trick_queue::Queues;
use trick_top_texts::ready;

/// Three jobs on three threads. That of thread 2 reads what that of thread 1 writes.
const S_DEFINE: &str = "class A : public Trick::SimObject {
  public:
    long x;
    void run() { x = x + 1; }
    A() { C1 (0.000001, \"scheduled\") run(); }
};
class B : public Trick::SimObject {
  public:
    long y;
    void run() { y = a.x * 10; }
    B() { C2 (0.000001, \"scheduled\") run(); }
};
class C : public Trick::SimObject {
  public:
    long z;
    void run() { z = z - 1; }
    C() { C3 (0.000001, \"scheduled\") run(); }
};
A a;
B b;
C c;
";

/// The job of thread 2 runs after that of thread 1.
const INPUT: &str = "trick.exec_add_depends_on_job('b.run', 1, 'a.run', 1)
";

// The queues of a plan, asked for tic 0.
fn queues_of(rt: &impl Abort, alloc: Global, accepted: &Accepted) -> Queues
    ensures own { IsQueueFor accepted.now.plan result }
    ensures asked { result.asked ≡ Some 0 }
{
    let plan = accepted.plan();
    let mut queues = Queues::new(alloc, plan, 0).expect(rt, "memory");
    queues.ask(plan, 0);
    queues
}

// A memory of zeros.
fn memory_of(rt: &impl Abort, alloc: Global, accepted: &Accepted) -> Memory
    ensures { IsMemoryOf accepted.now.plan.program result.numbers result.scalars }
{
    Memory::new(alloc, accepted.plan()).expect(rt, "memory")
}

// Opens tic 0 with a memory of zeros.
fn open<P: Planned, R: Wait + Abort>(
    rt: &R,
    alloc: Global,
    accepted: &Accepted,
    chief: &mut Chief<Memory, P>,
)
    requires plan { P.plan ≡ Some accepted.now.plan }
    requires closed { opened_at (own chief.old.pass) ≡ None }
    requires not_shut { has_shut (own chief.old.pass) ≡ false }
    ensures { IsSome (opened_at (own chief.new.pass)) }
{
    let queues = queues_of(rt, alloc, accepted);
    let memory = memory_of(rt, alloc, accepted);
    chief.open(rt, accepted, memory, &accepted.plan().jobs, queues.due(), 0);
}

// Closes the tic, in which no job is left, and shuts the hall.
fn close<P: Planned, R: Wait + Abort>(
    rt: &R,
    accepted: &Accepted,
    chief: &mut Chief<Memory, P>,
    faults: &mut Faults,
) -> Memory
    requires plan { P.plan ≡ Some accepted.now.plan }
    requires opened { IsSome (opened_at (own chief.old.pass)) }
{
    match chief.close(rt, accepted, faults) {
        Closed::Memory(memory) => {
            chief.shut(rt);
            memory
        }
        Closed::Left { .. } => panic!(rt; "no job is left"),
    }
}

// A worker with the last of some hands.
fn worker_of<P: Planned>(
    rt: &impl Abort,
    alloc: Global,
    accepted: &Accepted,
    hands: &mut Vec<Hand<Memory, P>>,
) -> Worker<P>
    ensures { IsBenchFor accepted.now.plan.program result.bench.parts }
{
    let hand = hands.pop().expect(rt, "three hands");
    Worker::new(rt, alloc, accepted, hand)
}

// The three workers of a hall with three hands.
fn workers_of<P: Planned>(
    rt: &impl Abort,
    alloc: Global,
    accepted: &Accepted,
    hands: &mut Vec<Hand<Memory, P>>,
) -> (Worker<P>, Worker<P>, Worker<P>)
    ensures first { IsBenchFor accepted.now.plan.program result.0.bench.parts }
    ensures second { IsBenchFor accepted.now.plan.program result.1.bench.parts }
    ensures third { IsBenchFor accepted.now.plan.program result.2.bench.parts }
{
    let third = worker_of(rt, alloc, accepted, hands);
    let second = worker_of(rt, alloc, accepted, hands);
    let first = worker_of(rt, alloc, accepted, hands);
    (first, second, third)
}

// The numbers of a memory, by cell.
fn numbers_of(rt: &impl Abort, alloc: Global, memory: &Memory) -> Vec<i64> {
    let mut numbers = Vec::new(alloc);
    for cell in 0..memory.len() {
        numbers.push(memory.get(Cell(cell))).expect(rt, "memory");
    }
    numbers
}

// Opens a tic, drives it by three threads, and hands back the memory that the close gives.
fn drive_tic<P: Planned + Send, R: Threads + Wait + Sync + Abort>(
    rt: &R,
    alloc: Global,
    accepted: &Accepted,
    chief: &mut Chief<Memory, P>,
    hands: &mut Vec<Hand<Memory, P>>,
) -> (Done, Memory)
    requires plan { P.plan ≡ Some accepted.now.plan }
    requires closed { opened_at (own chief.old.pass) ≡ None }
    requires not_shut { has_shut (own chief.old.pass) ≡ false }
{
    let workers = workers_of(rt, alloc, accepted, hands);
    open(rt, alloc, accepted, chief);
    let done = drive(rt, accepted, workers);
    let mut faults = Faults::new(alloc).expect(rt, "memory");
    (done, close(rt, accepted, chief, &mut faults))
}

// Does the same in a new hall.
fn driven<P: Planned + Send, R: Threads + Wait + Sync + Abort>(
    rt: &R,
    alloc: Global,
    accepted: &Accepted,
) -> (Done, Memory)
    requires plan { P.plan ≡ Some accepted.now.plan }
{
    let (mut chief, mut hands) = Hall::new::<Memory, P>(alloc, accepted, 3).expect(rt, "memory");
    drive_tic(rt, alloc, accepted, &mut chief, &mut hands)
}

// Three threads give what one thread makes of the memory.
fn gives_the_fold(rt: &(impl Threads + Wait + Sync + Abort), alloc: Global, accepted: &Accepted) {
    let (done, memory) = driven::<Brand, _>(rt, alloc, accepted);
    assert!(rt; done.committed, "each job is committed");
    assert!(rt; done.was_busy, "some call was busy");
    let numbers = numbers_of(rt, alloc, &memory);
    assert_eq!(rt; numbers.as_slice(), [1, 10, -1].as_slice());
}

#[test]
fn three_threads_give_the_fold(rt: HostRuntime) {
    let accepted = ready(rt.alloc(), S_DEFINE.as_bytes(), INPUT.as_bytes())
        .ok()
        .expect(&rt, "an accepted plan");
    gives_the_fold(&rt, rt.alloc(), &accepted);
    drop(accepted);
}
