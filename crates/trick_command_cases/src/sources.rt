//! A journal as the source of a run's entries, turn by turn.

use crate::checkpoints::{refused as refused_state, state_of};
use crate::journals::refused;
use crate::stage::Stage;
use crate::words::{Words, small};
use std::alloc::{AllocError, Global};
use trick_cases_report::Report;
use trick_exec_sources::{JournalTurns, Next, Turns};
use trick_journal::{push_entry_line, read};
use trick_memory::Memory;
use trick_model::{Entry, Journal, Mode, State};

/// A turn, and the mode of a run at it.
#[derive(Clone, Copy)]
pub(crate) struct At {
    turn: u64,
    mode: Mode,
}

/// Calls of a source of entries.
#[derive(Clone, Copy)]
pub(crate) enum SourceCall {
    /// Reads a journal, and makes it the source of a run that starts here.
    Begin(At),
    /// How many sessions have still to join.
    Joins,
    /// The entries of a turn.
    Entries(At),
    /// Whether a run may be over at this turn.
    Ends { turn: u64 },
    /// Whether its publications decide.
    Decides,
    /// Hands over a message to a session.
    Send { session: u32 },
}

// The mode of a word, or Run where there is none.
fn mode_of(word: &str) -> Option<Mode> {
    match word {
        "" | "Run" => Some(Mode::Run),
        "Freeze" => Some(Mode::Freeze),
        "Shutdown" => Some(Mode::Shutdown),
        _ => None,
    }
}

// The turn of some words, and their mode.
fn at_of(words: Words) -> Option<At> {
    let mode = mode_of(words.word)?;
    Some(At {
        turn: words.first,
        mode,
    })
}

/// The call of some words.
pub(crate) fn source_call(words: Words) -> Option<SourceCall> {
    match words.name {
        "source" => Some(SourceCall::Begin(at_of(words)?)),
        "joins" => Some(SourceCall::Joins),
        "entries" => Some(SourceCall::Entries(at_of(words)?)),
        "ends" => Some(SourceCall::Ends { turn: words.first }),
        "decides" => Some(SourceCall::Decides),
        "send" => Some(SourceCall::Send {
            session: small(words.first),
        }),
        _ => None,
    }
}

// Makes a journal the source.
fn begin_with(
    alloc: Global,
    source: &mut Option<JournalTurns>,
    at: At,
    journal: Journal,
) -> Result<(), AllocError> {
    *source = Some(JournalTurns::new(alloc, journal, at.turn, at.mode)?);
    Ok(())
}

// Reads a journal, and makes it the source, or tells the refusal.
fn begin(
    stage: Stage,
    source: &mut Option<JournalTurns>,
    at: At,
    text: &[u8],
    report: &mut Report,
) -> Result<(), AllocError> {
    match read(stage.alloc, stage.plan, at.turn, text) {
        Ok(journal) => begin_with(stage.alloc, source, at, journal),
        Err(fault) => {
            refused(fault, report);
            Ok(())
        }
    }
}

// The lines of entries of a turn, as in a journal.
fn lines_of(alloc: Global, turn: u64, entries: &[Entry]) -> Result<Vec<u8>, AllocError> {
    let mut lines = Vec::new(alloc);
    for entry in entries {
        push_entry_line(&mut lines, turn, entry)?;
    }
    Ok(lines)
}

// Tells the entries of a turn.
fn tell_entries(
    alloc: Global,
    turn: u64,
    entries: &[Entry],
    report: &mut Report,
) -> Result<(), AllocError> {
    let lines = lines_of(alloc, turn, entries)?;
    report.lines(&lines);
    Ok(())
}

// Tells the lengths of a journal and of a run.
fn tell_length(kept: u64, given: u64, report: &mut Report) {
    report.number("> length ", kept, "");
    report.number(" ", given, "\n");
}

// Tells what a source gives in a state.
fn entries_in(
    alloc: Global,
    source: &mut JournalTurns,
    state: &State<Memory>,
    report: &mut Report,
) -> Result<(), AllocError> {
    match source.entries(alloc, state, &[]) {
        Next::Entries(entries) => return tell_entries(alloc, state.turn, &entries, report),
        Next::Nothing => {}
        Next::Gap { turns } => report.number("> gap ", turns, "\n"),
        Next::NoMore => report.word("> no more\n"),
        Next::Length { kept, given } => tell_length(kept, given, report),
        Next::OutOfMemory => report.word("> refused OutOfMemory\n"),
    }
    Ok(())
}

// Tells what a source gives at a turn, in the state of the text `checkpoint` in this mode.
fn entries_at(
    stage: Stage,
    source: &mut JournalTurns,
    at: At,
    report: &mut Report,
) -> Result<(), AllocError> {
    match state_of(stage.alloc, stage.plan, stage.texts.named("checkpoint")) {
        Ok(mut state) => {
            state.turn = at.turn;
            state.mode = at.mode;
            entries_in(stage.alloc, source, &state, report)
        }
        Err(fault) => {
            refused_state(fault, report);
            Ok(())
        }
    }
}

// Tells whether a run may be over at this turn.
fn ends(source: &mut JournalTurns, turn: u64, report: &mut Report) {
    match Turns::<Memory>::ends(source, turn) {
        Some((kept, given)) => tell_length(kept, given, report),
        None => report.word("> ends\n"),
    }
}

// Tells whether the publications of a source decide.
fn decides(source: &JournalTurns, report: &mut Report) {
    report.word("> ");
    report.value(Turns::<Memory>::decides(source));
    report.word("\n");
}

// Tells what handing over a message answers.
fn send(source: &mut JournalTurns, session: u32, bytes: &[u8], report: &mut Report) {
    match Turns::<Memory>::send(source, session, bytes) {
        Ok(()) => report.word("> sent\n"),
        Err(_) => report.word("> refused OutOfMemory\n"),
    }
}

// Tells what a call of a source comes to.
fn answer_of(
    stage: Stage,
    source: &mut JournalTurns,
    call: SourceCall,
    bytes: &[u8],
    report: &mut Report,
) -> Result<(), AllocError> {
    match call {
        SourceCall::Begin(_) => {}
        SourceCall::Joins => report.number("> ", source.joins(), "\n"),
        SourceCall::Entries(at) => return entries_at(stage, source, at, report),
        SourceCall::Ends { turn } => ends(source, turn, report),
        SourceCall::Decides => decides(source, report),
        SourceCall::Send { session } => send(source, session, bytes, report),
    }
    Ok(())
}

/// Tells what a call comes to with this plan.
pub(crate) fn answer(
    stage: Stage,
    source: &mut Option<JournalTurns>,
    call: SourceCall,
    bytes: &[u8],
    report: &mut Report,
) -> Result<(), AllocError> {
    if let SourceCall::Begin(at) = call {
        return begin(stage, source, at, bytes, report);
    }
    let Some(source) = source else {
        report.word("> no source\n");
        return Ok(());
    };
    answer_of(stage, source, call, bytes, report)
}
