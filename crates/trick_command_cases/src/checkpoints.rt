//! Checkpoints, loaded and printed, the bytes of their memories, and threads beside the tics.

use crate::runs::Runs;
use crate::stage::Stage;
use std::alloc::{AllocError, Global};
use trick_cases_report::Report;
use trick_chkpt::load;
use trick_chkpt_printer::{jobs_of, print, scope, threads_beside};
use trick_codes::LoadFault;
use trick_lang::{Cell, JobId};
use trick_memory::Memory;
use trick_model::{Plan, State, Thread};

/// The state of a checkpoint, in a new memory of the plan.
pub(crate) fn state_of(
    alloc: Global,
    plan: &Plan,
    text: &[u8],
) -> Result<State<Memory>, LoadFault> {
    match Memory::new(alloc, plan) {
        Ok(memory) => load(alloc, plan, text, memory),
        Err(_) => Err(LoadFault::OutOfMemory),
    }
}

// Tells how a text is refused.
fn tell_fault(fault: LoadFault, report: &mut Report) {
    match fault {
        LoadFault::OutOfMemory => report.word("refused OutOfMemory"),
        LoadFault::Truncated { at } => report.number("refused Truncated ", at as u64, ""),
        LoadFault::Trailing { at } => report.number("refused Trailing ", at as u64, ""),
        LoadFault::BadLine { line } => report.number("refused BadLine ", line as u64, ""),
        LoadFault::WrongPlan { line } => report.number("refused WrongPlan ", line as u64, ""),
        LoadFault::OutOfRange { line } => report.number("refused OutOfRange ", line as u64, ""),
    }
}

/// Tells the same in a line.
pub(crate) fn refused(fault: LoadFault, report: &mut Report) {
    report.word("> ");
    tell_fault(fault, report);
    report.word("\n");
}

// Tells the lines of a state, as it is printed.
fn printed(
    alloc: Global,
    plan: &Plan,
    state: &State<Memory>,
    report: &mut Report,
) -> Result<(), AllocError> {
    let text = print(alloc, plan, state)?;
    report.lines(text.as_slice());
    Ok(())
}

/// Tells the state of a checkpoint as it is printed, or the refusal of the text.
pub(crate) fn loaded(
    alloc: Global,
    plan: &Plan,
    text: &[u8],
    report: &mut Report,
) -> Result<(), AllocError> {
    match state_of(alloc, plan, text) {
        Ok(state) => printed(alloc, plan, &state, report),
        Err(fault) => {
            refused(fault, report);
            Ok(())
        }
    }
}

// Adds a line and its line feed.
fn push_line(text: &mut Vec<u8>, line: &[u8]) -> Result<(), AllocError> {
    text.extend_from_slice(line)?;
    text.push(b'\n')?;
    Ok(())
}

// A text with another line in the place of one, counted from 1.
fn with_line(alloc: Global, text: &[u8], number: u64, other: &[u8]) -> Result<Vec<u8>, AllocError> {
    let mut bytes = Vec::new(alloc);
    for (index, line) in text.split_inclusive(|byte| *byte == b'\n').enumerate() {
        if index.saturating_add(1) as u64 == number {
            push_line(&mut bytes, other)?;
        } else {
            bytes.extend_from_slice(line)?;
        }
    }
    Ok(bytes)
}

/// Loads the text `checkpoint` with another line in the place of one.
pub(crate) fn loaded_with(
    stage: Stage,
    number: u64,
    other: &[u8],
    report: &mut Report,
) -> Result<(), AllocError> {
    let text = with_line(stage.alloc, stage.texts.named("checkpoint"), number, other)?;
    loaded(stage.alloc, stage.plan, &text, report)
}

// Tells bytes in hexadecimal, in a line.
fn in_hexadecimal(bytes: &[u8], report: &mut Report) {
    report.word(">");
    for byte in bytes {
        report.word(" ");
        report.digits(*byte);
    }
    report.word("\n");
}

/// Tells the bytes of the memory of a checkpoint, in hexadecimal, or the refusal of the text.
pub(crate) fn packed(alloc: Global, plan: &Plan, text: &[u8], report: &mut Report) {
    match state_of(alloc, plan, text) {
        Ok(state) => in_hexadecimal(state.memory.bytes(), report),
        Err(fault) => refused(fault, report),
    }
}

// How a text is refused.
fn fault_of(alloc: Global, plan: &Plan, text: &[u8]) -> Option<LoadFault> {
    match state_of(alloc, plan, text) {
        Ok(_) => None,
        Err(fault) => Some(fault),
    }
}

// Tells whether a text of so many bytes is loaded, or how it is refused.
fn tell_outcome(fault: Option<LoadFault>, len: usize, report: &mut Report) {
    match fault {
        None => report.word("loaded"),
        Some(LoadFault::Truncated { at }) if at == len => {
            report.word("refused Truncated at its length")
        }
        Some(fault) => tell_fault(fault, report),
    }
}

// Whether a text is loaded, or how it is refused.
fn outcome(alloc: Global, plan: &Plan, text: &[u8]) -> Result<String, AllocError> {
    let mut told = Report::new(alloc);
    tell_outcome(fault_of(alloc, plan, text), text.len(), &mut told);
    told.finish()
}

/// Tells the same for each beginning of a text but the whole, by its length.
pub(crate) fn load_fronts(
    alloc: Global,
    plan: &Plan,
    text: &[u8],
    report: &mut Report,
) -> Result<(), AllocError> {
    let mut runs = Runs::new();
    for len in 0..text.len() {
        let (front, _) = text.split_at(len);
        runs.add(len, outcome(alloc, plan, front)?, report);
    }
    runs.tell(report);
    Ok(())
}

// Tells the numbers of jobs.
fn tell_jobs(jobs: &[JobId], report: &mut Report) {
    for job in jobs {
        report.number(" ", u64::from(job.0), "");
    }
}

// Tells the numbers of cells.
fn tell_cells(cells: &[Cell], report: &mut Report) {
    for cell in cells {
        report.number(" ", u64::from(cell.0), "");
    }
}

// Tells the numbers of jobs, and of the cells that these may read or write.
fn tell_scope(jobs: &[JobId], cells: &[Cell], report: &mut Report) {
    report.word(" jobs");
    tell_jobs(jobs, report);
    report.word(" cells");
    tell_cells(cells, report);
    report.word("\n");
}

// Tells a thread with the numbers of its jobs, and of the cells that these may read or write.
fn tell_thread(
    alloc: Global,
    plan: &Plan,
    thread: Thread,
    report: &mut Report,
) -> Result<(), AllocError> {
    let jobs = jobs_of(alloc, &plan.program, thread)?;
    let cells = scope(alloc, plan, thread)?;
    report.number("> thread ", u64::from(thread.number), "");
    tell_scope(&jobs, &cells, report);
    Ok(())
}

/// Tells the threads beside the tics.
pub(crate) fn beside(alloc: Global, plan: &Plan, report: &mut Report) -> Result<(), AllocError> {
    let threads = threads_beside(alloc, plan)?;
    for thread in &threads {
        tell_thread(alloc, plan, *thread, report)?;
    }
    Ok(())
}
