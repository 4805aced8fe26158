//! Lists of steps as words: a capital letter takes a job, and the small letter commits it. `A` is job 0.

use std::alloc::{AllocError, Global};
use trick_lang::JobId;
use trick_phase_schedules::Step;

// The byte after the last letter.
const END: u8 = b'{';

/// A due job of a tic, and its predecessors, all by their letters.
#[derive(Clone, Copy)]
pub(crate) struct DueJob<'a> {
    pub(crate) letter: u8,
    pub(crate) predecessors: &'a str,
}

/// The letter of a job.
pub(crate) fn letter_of(job: JobId) -> char {
    char::from(b'A'.saturating_add(job.0.min(25) as u8))
}

// The step of a letter.
fn step_of(letter: u8) -> Step {
    let job = JobId(u32::from(letter.to_ascii_uppercase().saturating_sub(b'A')));
    if letter.is_ascii_uppercase() {
        Step::Take(job)
    } else {
        Step::Commit(job)
    }
}

/// The steps of a word.
pub(crate) fn steps_of(alloc: Global, word: &[u8]) -> Result<Vec<Step>, AllocError> {
    let mut steps = Vec::new(alloc);
    for letter in word {
        steps.push(step_of(*letter))?;
    }
    Ok(steps)
}

// The due job of a letter.
fn job_of<'a>(due: &[DueJob<'a>], letter: u8) -> Option<DueJob<'a>> {
    for job in due {
        if job.letter == letter {
            return Some(*job);
        }
    }
    None
}

// Whether all of these jobs are committed.
fn are_committed(before: &[u8], jobs: &str) -> bool {
    for job in jobs.as_bytes() {
        if !before.contains(&job.to_ascii_lowercase()) {
            return false;
        }
    }
    true
}

/// Whether a step can follow others: it is of a due job and not among them; before a take stand the commits
/// of the job's predecessors, and before a commit stands the take.
pub(crate) fn can_follow(due: &[DueJob], before: &[u8], letter: u8) -> bool {
    let take = letter.to_ascii_uppercase();
    let Some(job) = job_of(due, take) else {
        return false;
    };
    if before.contains(&letter) {
        return false;
    }
    if letter == take {
        are_committed(before, job.predecessors)
    } else {
        before.contains(&take)
    }
}

// The first letter from one on that can follow.
fn next_letter(due: &[DueJob], before: &[u8], from: u8) -> Option<u8> {
    for letter in from..END {
        if can_follow(due, before, letter) {
            return Some(letter);
        }
    }
    None
}

/// Goes on with the first letters that can follow, to a whole schedule.
pub(crate) fn complete(due: &[DueJob], word: &mut Vec<u8>) -> Result<(), AllocError> {
    for _step in 0..52u8 {
        let Some(letter) = next_letter(due, word.as_slice(), b'A') else {
            break;
        };
        word.push(letter)?;
    }
    Ok(())
}

/// The next schedule in the order of letters. After the last one the word is empty.
pub(crate) fn advance(due: &[DueJob], word: &mut Vec<u8>) -> Result<(), AllocError> {
    for _step in 0..word.len() {
        let last = word.pop().unwrap_or(b'z');
        if let Some(letter) = next_letter(due, word.as_slice(), last.saturating_add(1)) {
            word.push(letter)?;
            return complete(due, word);
        }
    }
    Ok(())
}
