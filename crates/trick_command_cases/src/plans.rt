//! Calls that are made with the plan of the texts `s_define` and `input`.

use crate::checkpoints::{beside, load_fronts, loaded, loaded_with, packed};
use crate::journals::{read_after, read_fronts};
use crate::sessions::{Turn, applied, sampled, stopped};
use crate::stage::Stage;
use crate::words::{Words, small};
use std::alloc::{AllocError, Global};
use trick_cases_report::Report;
use trick_top_texts::Unready;

/// Calls that are made with a plan.
#[derive(Clone, Copy)]
pub(crate) enum PlanCall<'w> {
    /// A session of this number does the lines of the text `session`, and then a line.
    Apply { number: u32 },
    /// The same, and then it is asked to stop after so many tics.
    Stop { number: u32, tics: u64 },
    /// A session does the lines of the text `session`, and then others, and is sent its sample.
    Sample(Turn),
    /// A journal of a run that starts at this turn is read, after the text of this name.
    Read { start: u64, front: &'w str },
    /// The same with each beginning of a journal.
    ReadFronts { start: u64 },
    /// A checkpoint is loaded.
    Load,
    /// The text `checkpoint` is loaded with another line of this number.
    LoadWith { line: u64 },
    /// Each beginning of a checkpoint is loaded.
    LoadFronts,
    /// A checkpoint is loaded, and the bytes of its memory are told.
    Bytes,
    /// The threads beside the tics, with their jobs and cells.
    Beside,
}

// The turn of some words.
fn turn_of(words: Words) -> Option<Turn> {
    let leaving = words.word == "leaving";
    if !leaving && !words.word.is_empty() {
        return None;
    }
    Some(Turn {
        from: words.first,
        to: words.second,
        leaving,
    })
}

/// The call of some words.
pub(crate) fn plan_call(words: Words) -> Option<PlanCall> {
    match words.name {
        "apply" => Some(PlanCall::Apply {
            number: small(words.first),
        }),
        "stop" => Some(PlanCall::Stop {
            number: small(words.first),
            tics: words.second,
        }),
        "sample" => Some(PlanCall::Sample(turn_of(words)?)),
        "read" => Some(PlanCall::Read {
            start: words.first,
            front: words.word,
        }),
        "read_fronts" => Some(PlanCall::ReadFronts { start: words.first }),
        "load" => Some(PlanCall::Load),
        "load_with" => Some(PlanCall::LoadWith { line: words.first }),
        "load_fronts" => Some(PlanCall::LoadFronts),
        "bytes" => Some(PlanCall::Bytes),
        "beside" => Some(PlanCall::Beside),
        _ => None,
    }
}

/// Tells what a call comes to with this plan.
pub(crate) fn answer(
    stage: Stage,
    call: PlanCall,
    bytes: &[u8],
    report: &mut Report,
) -> Result<(), AllocError> {
    match call {
        PlanCall::Apply { number } => applied(stage, number, bytes, report),
        PlanCall::Stop { number, tics } => stopped(stage, number, tics, report),
        PlanCall::Sample(turn) => sampled(stage, turn, bytes, report),
        PlanCall::Read { start, front } => read_after(stage, start, front, bytes, report),
        PlanCall::ReadFronts { start } => read_fronts(stage, start, bytes, report),
        PlanCall::Load => loaded(stage.alloc, stage.plan, bytes, report),
        PlanCall::LoadWith { line } => loaded_with(stage, line, bytes, report),
        PlanCall::LoadFronts => load_fronts(stage.alloc, stage.plan, bytes, report),
        PlanCall::Bytes => {
            packed(stage.alloc, stage.plan, bytes, report);
            Ok(())
        }
        PlanCall::Beside => beside(stage.alloc, stage.plan, report),
    }
}

// Tells the line of a refusal.
fn refused(alloc: Global, line: &[u8], report: &mut Report) -> Result<(), AllocError> {
    let line = String::from_utf8_lossy(alloc, line)?;
    report.word(line.as_str());
    Ok(())
}

/// Tells why there is no plan.
pub(crate) fn unready(
    alloc: Global,
    unready: &Unready,
    report: &mut Report,
) -> Result<(), AllocError> {
    match unready {
        Unready::TextRefused { line } | Unready::PlanRefused { line } => {
            refused(alloc, line.as_slice(), report)
        }
        Unready::OutOfMemory => {
            report.word("refused OutOfMemory\n");
            Ok(())
        }
    }
}
