//! Journals, read and printed.

use crate::runs::Runs;
use crate::stage::Stage;
use std::alloc::{AllocError, Global};
use trick_cases_report::Report;
use trick_journal::{JournalFault, print, read};
use trick_model::{Journal, Plan};

// Tells how a text is refused.
fn tell_fault(fault: JournalFault, report: &mut Report) {
    match fault {
        JournalFault::OutOfMemory => report.word("refused OutOfMemory"),
        JournalFault::BadLine { line } => report.number("refused BadLine ", line as u64, ""),
        JournalFault::NotRising { line } => report.number("refused NotRising ", line as u64, ""),
        JournalFault::NotJoined { line } => report.number("refused NotJoined ", line as u64, ""),
        JournalFault::NotAsync { line } => report.number("refused NotAsync ", line as u64, ""),
        JournalFault::NoEnd { line } => report.number("refused NoEnd ", line as u64, ""),
    }
}

/// Tells the same in a line.
pub(crate) fn refused(fault: JournalFault, report: &mut Report) {
    report.word("> ");
    tell_fault(fault, report);
    report.word("\n");
}

// Tells the lines of a journal, as it is printed.
fn printed(alloc: Global, journal: &Journal, report: &mut Report) -> Result<(), AllocError> {
    let text = print(alloc, journal)?;
    report.lines(text.as_slice());
    Ok(())
}

// Tells the journal of a text, as it is printed, or the refusal of the text.
fn read_whole(
    alloc: Global,
    plan: &Plan,
    start: u64,
    text: &[u8],
    report: &mut Report,
) -> Result<(), AllocError> {
    match read(alloc, plan, start, text) {
        Ok(journal) => printed(alloc, &journal, report),
        Err(fault) => {
            refused(fault, report);
            Ok(())
        }
    }
}

// Two texts, one after the other.
fn joined(alloc: Global, front: &[u8], back: &[u8]) -> Result<Vec<u8>, AllocError> {
    let mut text = front.to_vec(alloc)?;
    text.extend_from_slice(back)?;
    Ok(text)
}

/// Tells the journal of a text that stands after that of a name, as it is printed, or the refusal of both.
pub(crate) fn read_after(
    stage: Stage,
    start: u64,
    front: &str,
    back: &[u8],
    report: &mut Report,
) -> Result<(), AllocError> {
    let text = joined(stage.alloc, stage.texts.named(front), back)?;
    read_whole(stage.alloc, stage.plan, start, &text, report)
}

// How a text is refused.
fn fault_of(alloc: Global, plan: &Plan, start: u64, text: &[u8]) -> Option<JournalFault> {
    match read(alloc, plan, start, text) {
        Ok(_) => None,
        Err(fault) => Some(fault),
    }
}

// Whether a text is read, or how it is refused.
fn outcome(alloc: Global, plan: &Plan, start: u64, text: &[u8]) -> Result<String, AllocError> {
    let mut told = Report::new(alloc);
    match fault_of(alloc, plan, start, text) {
        None => told.word("read"),
        Some(fault) => tell_fault(fault, &mut told),
    }
    told.finish()
}

/// Tells the same for each beginning of a text but the whole, by its length.
pub(crate) fn read_fronts(
    stage: Stage,
    start: u64,
    text: &[u8],
    report: &mut Report,
) -> Result<(), AllocError> {
    let mut runs = Runs::new();
    for len in 0..text.len() {
        let (front, _) = text.split_at(len);
        let outcome = outcome(stage.alloc, stage.plan, start, front)?;
        runs.add(len, outcome, report);
    }
    runs.tell(report);
    Ok(())
}
