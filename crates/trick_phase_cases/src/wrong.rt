//! Schedules with a wrong step in them.

use crate::schedules::{Tic, tell};
use crate::tally::Tally;
use crate::words::{advance, can_follow, complete};
use std::alloc::AllocError;
use trick_cases_report::Report;
use trick_memory::Memory;
use trick_phase::Played;

/// A tic, and the steps that are tried.
#[derive(Clone, Copy)]
pub(crate) struct Wrong<'a, 'b> {
    pub(crate) tic: Tic<'a>,
    pub(crate) letters: &'b str,
}

// Whether a list of steps was wrong at a place.
fn is_wrong_at(played: &Played<Memory>, place: usize) -> bool {
    match played {
        Played::Done { .. } => false,
        Played::Wrong { at } => *at == place,
    }
}

// Adds what a list of steps came to that should be wrong at a place.
fn tell_wrong(played: &Played<Memory>, place: usize, report: &mut Report) {
    if is_wrong_at(played, place) {
        report.word("wrong where no schedule goes on");
    } else {
        tell(played, report);
    }
}

// Adds the beginning of a schedule, another step, and then all steps of the schedule.
fn add_list(
    word: &mut Vec<u8>,
    before: &[u8],
    letter: u8,
    schedule: &[u8],
) -> Result<(), AllocError> {
    word.extend_from_slice(before)?;
    word.push(letter)?;
    word.extend_from_slice(schedule)?;
    Ok(())
}

impl Wrong<'_, '_> {
    // What a list of steps comes to that should be wrong at a place, as a text.
    fn outcome(self, word: &[u8], place: usize) -> Result<String, AllocError> {
        let played = self.tic.played(word)?;
        let mut report = Report::new(self.tic.alloc);
        tell_wrong(&played, place, &mut report);
        drop(played);
        report.finish()
    }

    // Counts a list of steps that should be wrong at a place.
    fn count(self, word: &[u8], place: usize, tally: &mut Tally) -> Result<(), AllocError> {
        let outcome = self.outcome(word, place)?;
        tally.add(outcome)
    }

    // Counts the list that goes on with this step, where no schedule does.
    fn count_step(
        self,
        before: &[u8],
        letter: u8,
        schedule: &[u8],
        tally: &mut Tally,
    ) -> Result<(), AllocError> {
        if can_follow(self.tic.due, before, letter) {
            return Ok(());
        }
        let mut word = Vec::new(self.tic.alloc);
        add_list(&mut word, before, letter, schedule)?;
        self.count(&word, before.len(), tally)
    }

    // Counts the lists that go on after the beginning of a schedule with another step than a schedule can have
    // there, and then with all steps of the schedule.
    fn count_behind(
        self,
        before: &[u8],
        schedule: &[u8],
        tally: &mut Tally,
    ) -> Result<(), AllocError> {
        for letter in self.letters.as_bytes() {
            self.count_step(before, *letter, schedule, tally)?;
        }
        Ok(())
    }

    // The same for each place of a schedule, with the lists that are cut short there.
    fn count_along(self, schedule: &[u8], tally: &mut Tally) -> Result<(), AllocError> {
        for place in 0..schedule.len() {
            let (before, _) = schedule.split_at(place);
            self.count_behind(before, schedule, tally)?;
            self.count(before, place, tally)?;
        }
        self.count_behind(schedule, schedule, tally)
    }

    // Counts all such lists.
    fn count_all(self, word: &mut Vec<u8>, tally: &mut Tally) -> Result<(), AllocError> {
        complete(self.tic.due, word)?;
        for _schedule in 0..10_000u32 {
            if word.is_empty() {
                break;
            }
            self.count_along(word, tally)?;
            advance(self.tic.due, word)?;
        }
        Ok(())
    }

    /// Adds how many such lists there are, by what they come to.
    pub(crate) fn tell_all(self, report: &mut Report) -> Result<(), AllocError> {
        let mut tally = Tally::new(self.tic.alloc);
        let mut word = Vec::new(self.tic.alloc);
        self.count_all(&mut word, &mut tally)?;
        tally.tell("lists", report);
        Ok(())
    }
}
