//! The faults of a run: how many there were, and which are kept.

use crate::words::{Words, split};
use std::alloc::{AllocError, Global};
use trick_cases_report::Report;
use trick_lang::{FaultKind, JobFault, JobId};
use trick_model::{Faults, KEPT_FAULTS};

/// So many faults, one a tic from 0 on, and then so many that are counted alone.
#[derive(Clone, Copy)]
pub(crate) struct FaultsCall {
    added: u64,
    more: u64,
}

// How many more a word asks for, as `more 7`; none where it has no byte.
fn more_of(word: &str) -> Option<u64> {
    match split(word) {
        ("", "") => Some(0),
        ("more", count) => count.parse().ok(),
        _ => None,
    }
}

/// The call of some words.
pub(crate) fn faults_call(words: Words) -> Option<FaultsCall> {
    if words.name != "faults" {
        return None;
    }
    let more = more_of(words.word)?;
    Some(FaultsCall {
        added: words.first,
        more,
    })
}

// Tells the count of faults, how many are kept and the last of these.
fn tell(faults: &Faults, report: &mut Report) {
    report.number("> ", faults.count(), " faults, ");
    report.number("", faults.first().len() as u64, " kept");
    if let Some(last) = faults.first().last() {
        report.word(", the last ");
        report.code(last);
    }
    report.word("\n");
}

// Adds so many faults.
fn add(faults: &mut Faults, added: u64) {
    for tic in 0..added.min(100_000) {
        faults.add(JobFault {
            tic,
            job: JobId(3),
            kind: FaultKind::DivideByZero,
            line: 7,
        });
    }
}

// Counts so many more, where those are there that are kept.
fn count_more(faults: &mut Faults, more: u64, report: &mut Report) {
    if faults.count() >= KEPT_FAULTS as u64 {
        faults.count_more(more);
        tell(faults, report);
    }
}

/// Tells what a call comes to.
pub(crate) fn answer(
    alloc: Global,
    call: FaultsCall,
    report: &mut Report,
) -> Result<(), AllocError> {
    let mut faults = Faults::new(alloc)?;
    add(&mut faults, call.added);
    tell(&faults, report);
    count_more(&mut faults, call.more, report);
    Ok(())
}
