//! What lines do to a session, and its samples.

ghost use Rattle.std.specs.Prelude.{◌≡◌, ◌<◌, IfSome, true};
ghost use Rattle.trick_session.specs.Kept.{AreThere, IsSession};

use crate::checkpoints::{refused, state_of};
use crate::clients::command_of;
use crate::stage::Stage;
use std::alloc::{AllocError, Global};
use trick_base::Word;
use trick_cases_report::Report;
use trick_lang::{Cell, Cells};
use trick_memory::Memory;
use trick_model::{Action, Command, Deed, Plan, Session, State};
use trick_session::{Reply, apply, join, sample};

/// A turn in which the tic went from one number to another, and whether the session leaves with it.
#[derive(Clone, Copy)]
pub(crate) struct Turn {
    pub(crate) from: u64,
    pub(crate) to: u64,
    pub(crate) leaving: bool,
}

// More variables than these are not shown.
const SHOWN: usize = 10;

// Does a client's line.
fn say(
    alloc: Global,
    plan: &Plan,
    session: &mut Session,
    line: &[u8],
) -> Result<Reply, AllocError> {
    let command = command_of(alloc, line)?;
    apply(alloc, plan, session, command)
}

// Does the lines of a text.
fn say_all(
    alloc: Global,
    plan: &Plan,
    session: &mut Session,
    text: &[u8],
) -> Result<(), AllocError> {
    for line in text.split(|byte| *byte == b'\n') {
        say(alloc, plan, session, line)?;
    }
    Ok(())
}

// A session of this number that did the lines of the text `session`.
fn begun(stage: Stage, number: u32) -> Result<Session, AllocError> {
    let mut session = join(stage.alloc, number);
    let lines = stage.texts.named("session");
    say_all(stage.alloc, stage.plan, &mut session, lines)?;
    Ok(session)
}

// Tells a variable, with its cell where it has one.
fn tell_variable(variable: &(Word, Option<Cell>), report: &mut Report) {
    report.named("", variable.0.as_slice());
    match variable.1 {
        Some(cell) => report.number(" ", u64::from(cell.0), ""),
        None => report.word(" no cell"),
    }
}

// Tells the list of variables, or its first ones and the count of all.
fn tell_list(all: &[(Word, Option<Cell>)], report: &mut Report) {
    for variable in all.iter().take(SHOWN) {
        tell_variable(variable, report);
    }
    if all.len() > SHOWN {
        report.number(" .. ", all.len() as u64, " variables");
    }
}

// Tells a word where something is so.
fn tell_if(so: bool, word: &str, report: &mut Report) {
    if so {
        report.word(word);
    }
}

// Tells a session in a line.
fn tell_session(session: &Session, report: &mut Report) {
    report.number("> session ", u64::from(session.number), "");
    report.number(" cycle ", session.cycle, "");
    report.number(" copy ", u64::from(session.copy), "");
    tell_if(session.paused, " paused", report);
    tell_if(session.send, " send", report);
    tell_if(session.leaving, " leaving", report);
    report.word(" list");
    tell_list(session.variables.as_slice(), report);
    report.word("\n");
}

// Tells a message, where there is one.
fn tell_message(message: &[u8], report: &mut Report) {
    if !message.is_empty() {
        report.named("> message", message);
        report.word("\n");
    }
}

// Tells a deed that is to be done, where there is one.
fn tell_deed(deed: Option<Deed>, report: &mut Report) {
    if let Some(deed) = deed {
        report.word("> act ");
        report.code(&deed);
        report.word("\n");
    }
}

// Tells the reply to a command: the message, the deed, and whether Freeze is to be left; and the session after it.
fn tell(reply: &Reply, session: &Session, report: &mut Report) {
    tell_message(reply.bytes.as_slice(), report);
    tell_deed(reply.act, report);
    tell_if(reply.run, "> run\n", report);
    tell_session(session, report);
}

// Does a command, and tells the reply and the session after it.
fn answer(
    stage: Stage,
    session: &mut Session,
    command: Command,
    report: &mut Report,
) -> Result<(), AllocError> {
    let reply = apply(stage.alloc, stage.plan, session, command)?;
    tell(&reply, session, report);
    Ok(())
}

// Does a client's line, and tells the same.
fn answer_line(
    stage: Stage,
    session: &mut Session,
    line: &[u8],
    report: &mut Report,
) -> Result<(), AllocError> {
    let command = command_of(stage.alloc, line)?;
    answer(stage, session, command, report)
}

/// Tells what a line comes to, once a session of this number did the lines of the text `session`.
pub(crate) fn applied(
    stage: Stage,
    number: u32,
    line: &[u8],
    report: &mut Report,
) -> Result<(), AllocError> {
    let mut session = begun(stage, number)?;
    answer_line(stage, &mut session, line, report)
}

/// Tells the same for what no line can say: to stop after any number of tics.
pub(crate) fn stopped(
    stage: Stage,
    number: u32,
    tics: u64,
    report: &mut Report,
) -> Result<(), AllocError> {
    let mut session = begun(stage, number)?;
    let stop = Command::Act(Action::Stop { at: Some(tics) });
    answer(stage, &mut session, stop, report)
}

// Whether a variable is one of so many cells, or none.
fn is_there(cell: Option<Cell>, cells: u32) -> bool
    ensures { result ≡ true → IfSome cell (λ cell. cell.0 < cells) }
{
    match cell {
        Some(cell) => cell.0 < cells,
        None => true,
    }
}

// Whether all of these are.
fn are_there(variables: &[(Word, Option<Cell>)], cells: u32) -> bool
    ensures { result ≡ true → AreThere cells variables.now }
{
    let mut rest = variables;
    while let [variable, after @ ..] = rest {
        if !is_there(variable.1, cells) {
            return false;
        }
        rest = after;
    }
    true
}

// Whether a session is one of a plan with so many cells, as each is that joined and did lines.
fn is_right(session: &Session, cells: u32) -> bool
    ensures { result ≡ true → IsSession cells session.now }
{
    session.cycle >= 1 && are_there(session.variables.as_slice(), cells)
}

// Tells a sample.
fn tell_sample(sample: Option<&[u8]>, report: &mut Report) {
    match sample {
        Some(line) => report.named("> message", line),
        None => report.word("> none"),
    }
    report.word("\n");
}

// Tells the sample of a session in a state.
fn sample_in(
    alloc: Global,
    session: &Session,
    state: &State<Memory>,
    from: u64,
    report: &mut Report,
) -> Result<(), AllocError> {
    if !is_right(session, state.memory.len()) {
        report.word("> no session of the plan\n");
        return Ok(());
    }
    match sample(alloc, session, state, from)? {
        Some(line) => tell_sample(Some(line.as_slice()), report),
        None => tell_sample(None, report),
    }
    Ok(())
}

// Tells the sample of a session after a turn, in the state of the text `checkpoint`.
fn sample_after(
    stage: Stage,
    session: &Session,
    turn: Turn,
    report: &mut Report,
) -> Result<(), AllocError> {
    match state_of(stage.alloc, stage.plan, stage.texts.named("checkpoint")) {
        Ok(mut state) => {
            state.tic = turn.to;
            sample_in(stage.alloc, session, &state, turn.from, report)
        }
        Err(fault) => {
            refused(fault, report);
            Ok(())
        }
    }
}

// Does lines, and then tells the sample after a turn.
fn sample_of(
    stage: Stage,
    session: &mut Session,
    turn: Turn,
    lines: &[u8],
    report: &mut Report,
) -> Result<(), AllocError> {
    say_all(stage.alloc, stage.plan, session, lines)?;
    session.leaving = turn.leaving;
    sample_after(stage, session, turn, report)
}

/// Tells what a session is sent at the end of a turn, in the state of the text `checkpoint`, once it did the lines of
/// the text `session` and others.
pub(crate) fn sampled(
    stage: Stage,
    turn: Turn,
    lines: &[u8],
    report: &mut Report,
) -> Result<(), AllocError> {
    let mut session = begun(stage, 1)?;
    sample_of(stage, &mut session, turn, lines, report)
}
