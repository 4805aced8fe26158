//! The workers of a crew, each started in a thread of its own or refused.
ghost use Rattle.std.specs.Prelude.{◌≡◌, ◌+◌, ◌++◌, ◌<◌, ◌≤◌, [], All, length, reverse, vec_capacity, vec_len};
ghost use Rattle.trick_crew_team.specs.Hands.{AreOfHall, IsLeftBy, IsTakenIn};
ghost use Rattle.trick_crew_team.specs.Members.{AddsRefused, AreMembers, IsRefusedAny, refused};
ghost use Rattle.trick_crew_team.specs.Working.{HasWorked};
ghost use Rattle.trick_outside.specs.Causes.{HasCause};
ghost use Rattle.trick_turn.specs.Passes.{own, seen};
ghost use mathlib.Core.List.{IsPrefix};

use crate::worker::Worker;
use std::alloc::Global;
use std::sync::Wait;
use std::thread::Threads;
use trick_hall::{Chief, Hand};
use trick_lang::Cells;
use trick_model::Planned;
use trick_outside::{Begun, Gate, Spawner, start};

/// Starts each of these workers, the last one first, as far as the spawner and the system admit it. It takes no memory
/// but what a start takes.
pub(crate) fn start_each<
    M: Cells + Drop + Send + 'static,
    P: Planned + Send + 'static,
    G: Gate + Send + Sync + Drop + 'static,
    R: Threads + Wait + Copy + Send + Drop + 'static,
    S: Spawner,
>(
    rt: &R,
    alloc: Global,
    spawner: &mut S,
    workers: Vec<Worker<M, P, G, R>>,
    members: &mut Vec<Begun<Worker<M, P, G, R>>>,
)
    requires empty { members.old.items ≡ [] }
    requires room { vec_len workers ≤ vec_capacity members.old }
    requires none { vec_len members.old ≡ 0 }
    ensures many { vec_len members.new ≡ vec_len workers }
    ensures members { AreMembers HasWorked workers.items (reverse members.new.items) }
    ensures cause { HasCause (S.failures spawner.old) (S.failures spawner.new) (IsRefusedAny members.new.items) }
{
    let mut workers = workers;
    while let Some(worker) = workers.pop() {
        let member = start(rt, alloc, spawner, worker);
        members.push_reserved(member);
    }
}

// Adds the thread of a worker that was refused.
fn add_if_refused<
    M: Cells + Drop + Send + 'static,
    P: Planned + Send + 'static,
    G: Gate + Send + Sync + Drop + 'static,
    R: Threads + Wait + Copy + Send + Drop + 'static,
>(member: &Begun<Worker<M, P, G, R>>, threads: &mut Vec<u8>)
    requires room { vec_len threads.old < vec_capacity threads.old }
    ensures added { AddsRefused (λ w. w.thread) member.now threads.old.items threads.new.items }
    ensures len { vec_len threads.new ≤ vec_len threads.old + 1 }
    ensures capacity { vec_capacity threads.new ≡ vec_capacity threads.old }
{
    if let Begun::Refused(worker) = member {
        threads.push_reserved(worker.thread);
    }
}

/// Adds the threads of the workers that were refused.
pub(crate) fn add_refused<
    M: Cells + Drop + Send + 'static,
    P: Planned + Send + 'static,
    G: Gate + Send + Sync + Drop + 'static,
    R: Threads + Wait + Copy + Send + Drop + 'static,
>(members: &[Begun<Worker<M, P, G, R>>], threads: &mut Vec<u8>)
    requires room { vec_len threads.old + length members.now ≤ vec_capacity threads.old }
    ensures { threads.new.items ≡ threads.old.items ++ refused (λ w. w.thread) members.now }
{
    for member in members {
        add_if_refused(member, threads);
    }
}

// Waits for a worker, and takes its hand out.
fn hand_of<
    M: Cells + Drop + Send + 'static,
    P: Planned + Send + 'static,
    G: Gate + Send + Sync + Drop + 'static,
    R: Threads + Wait + Copy + Send + Drop + 'static,
>(rt: &R, member: Begun<Worker<M, P, G, R>>) -> Hand<M, P>
    ensures { IsLeftBy member result }
{
    match member {
        Begun::Started(running) => running.finish(rt),
        Begun::Refused(worker) => {
            let Worker { hand, .. } = worker;
            hand
        }
    }
}

/// Waits for each worker, and takes its hand in. The hall has to be shut.
pub(crate) fn take_each_in<
    M: Cells + Drop + Send + 'static,
    P: Planned + Send + 'static,
    G: Gate + Send + Sync + Drop + 'static,
    R: Threads + Wait + Copy + Send + Drop + 'static,
>(rt: &R, chief: &mut Chief<M, P>, members: Vec<Begun<Worker<M, P, G, R>>>)
    requires hall { ∥ AreOfHall chief.old.pass members.items ∥₁ }
    ensures own { own chief.new.pass ≡ own chief.old.pass }
    ensures chief { IsPrefix (seen chief.old.pass) (seen chief.new.pass) }
    ensures members { All (IsTakenIn chief.new.pass) members.items }
{
    let mut members = members;
    while let Some(member) = members.pop() {
        let hand = hand_of(rt, member);
        chief.take_in(hand);
    }
}
