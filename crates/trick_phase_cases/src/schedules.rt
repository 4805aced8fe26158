//! Lists of steps of a tic, played from a memory of zeros on.

use crate::tally::Tally;
use crate::told;
use crate::words::{DueJob, advance, complete, steps_of};
use std::alloc::{AllocError, Global};
use trick_cases_report::Report;
use trick_memory::Memory;
use trick_model::Accepted;
use trick_phase::{Played, play};
use trick_phase_schedules::Step;

/// A tic of a plan, its due jobs, and where memory is taken from.
#[derive(Clone, Copy)]
pub(crate) struct Tic<'a> {
    pub(crate) alloc: Global,
    pub(crate) accepted: &'a Accepted,
    pub(crate) tic: u64,
    pub(crate) due: &'a [DueJob<'a>],
}

/// Adds what a list of steps came to: memory and faults, or the place at which it is wrong.
pub(crate) fn tell(played: &Played<Memory>, report: &mut Report) {
    match played {
        Played::Done { memory, faults } => told::tell(memory, faults, report),
        Played::Wrong { at } => report.number("wrong at ", *at as u64, ""),
    }
}

/// Adds a line of it.
pub(crate) fn tell_line(played: Played<Memory>, report: &mut Report) {
    report.word("> ");
    tell(&played, report);
    report.word("\n");
    drop(played);
}

impl Tic<'_> {
    // Plays some steps.
    fn play(self, steps: &[Step]) -> Result<Played<Memory>, AllocError> {
        let Tic {
            alloc,
            accepted,
            tic,
            ..
        } = self;
        let plan = accepted.plan();
        let memory = Memory::new(alloc, plan)?;
        play(alloc, accepted, memory, &plan.jobs, tic, steps)
    }

    /// Plays a list of steps.
    pub(crate) fn played(self, word: &[u8]) -> Result<Played<Memory>, AllocError> {
        let steps = steps_of(self.alloc, word)?;
        self.play(&steps)
    }

    /// Adds what a list of steps comes to.
    pub(crate) fn tell(self, word: &[u8], report: &mut Report) -> Result<(), AllocError> {
        tell_line(self.played(word)?, report);
        Ok(())
    }

    // What a list of steps comes to, as a text.
    fn outcome(self, word: &[u8]) -> Result<String, AllocError> {
        let played = self.played(word)?;
        let mut report = Report::new(self.alloc);
        tell(&played, &mut report);
        drop(played);
        report.finish()
    }

    // Counts a list of steps by what it comes to.
    fn count(self, word: &[u8], tally: &mut Tally) -> Result<(), AllocError> {
        let outcome = self.outcome(word)?;
        tally.add(outcome)
    }

    // Counts all schedules by what they come to. They are made by the rule for schedules: a job is taken once, after
    // the commits of its predecessors, and then committed.
    fn count_all(self, word: &mut Vec<u8>, tally: &mut Tally) -> Result<(), AllocError> {
        complete(self.due, word)?;
        for _schedule in 0..10_000u32 {
            self.count(word, tally)?;
            advance(self.due, word)?;
            if word.is_empty() {
                break;
            }
        }
        Ok(())
    }

    /// Adds how many schedules there are, by what they come to.
    pub(crate) fn tell_all(self, report: &mut Report) -> Result<(), AllocError> {
        let mut tally = Tally::new(self.alloc);
        let mut word = Vec::new(self.alloc);
        self.count_all(&mut word, &mut tally)?;
        tally.tell("schedules", report);
        Ok(())
    }
}
