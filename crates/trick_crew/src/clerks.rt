//! The clerks of a crew.
ghost use Rattle.trick_crew.specs.Ends.{HaveEnded};

use crate::nobody::Nobody;
use std::sync::Wait;
use std::thread::Threads;
use trick_crew_clerks::Yard;
use trick_lang::Cells;
use trick_model::{Faults, Planned, Taken};
use trick_outside::Gate;
use trick_post::ShutPost;
use trick_post_work::{Job1, Posted, Posts};

/// Who does the work of must-finish and asynchronous threads.
#[derive(Drop)]
pub enum Clerks<
    P: Planned + Send + 'static,
    G: Gate + Send + Sync + Drop + 'static,
    R: Threads + Wait + Copy + Send + Drop + 'static,
> {
    /// The plan has no such thread.
    Nobody(Nobody<P>),
    /// Each such thread has its clerk.
    Yard(Yard<P, G, R>),
}

impl<
    P: Planned + Send + 'static,
    G: Gate + Send + Sync + Drop + 'static,
    R: Threads + Wait + Copy + Send + Drop + 'static,
> Clerks<P, G, R> {
    /// Ends the clerks: each thread is waited for. A yard leaves its post, which was shut.
    pub(crate) fn close(self) -> Option<ShutPost<P>>
        ensures { HaveEnded self result }
    {
        match self {
            Clerks::Nobody(_) => None,
            Clerks::Yard(yard) => Some(yard.close()),
        }
    }
}

impl<
    P: Planned + Send + 'static,
    G: Gate + Send + Sync + Drop + 'static,
    R: Threads + Wait + Copy + Send + Drop + 'static,
> Posts for Clerks<P, G, R> {
    ghost use Rattle.trick_crew.specs.Asking.{WereAsked, asked_join, asked_late, asked_none};
    ghost use Rattle.trick_crew.specs.InHand.{in_hand, lateness_of, plan_for};

    ghost plan = { plan_for };

    ghost in_flight = { in_hand };

    ghost lateness = { lateness_of };

    ghost asked = { WereAsked };

    fn start(&mut self, thread: u8, taken: &Taken, work: Job1) {
        match self {
            Clerks::Nobody(_) => unreachable!(),
            Clerks::Yard(yard) => yard.start(thread, taken, work),
        }
    }

    fn poll(&mut self, thread: u8, turn: u64) -> Posted {
        match self {
            Clerks::Nobody(_) => unreachable!(),
            Clerks::Yard(yard) => yard.poll(thread, turn),
        }
    }

    fn late(&self) -> u64 {
        match self {
            Clerks::Nobody(_) => 0,
            Clerks::Yard(yard) => yard.late(),
        }
    }

    fn finish<M: Cells>(&mut self, thread: u8, memory: &mut M, faults: &mut Faults, tic: u64) {
        match self {
            Clerks::Nobody(_) => unreachable!(),
            Clerks::Yard(yard) => yard.finish(thread, memory, faults, tic),
        }
    }

    ghost asked_none = { asked_none };

    ghost asked_join = { asked_join };

    ghost asked_late = { asked_late };
}
