//! Lines of clients, and texts of actions.

use crate::runs::Runs;
use std::alloc::{AllocError, Global};
use trick_base::Line;
use trick_cases_report::Report;
use trick_command::{ActionFault, actions, command};
use trick_model::{Action, Command};

/// Calls that read what clients say.
#[derive(Clone, Copy)]
pub(crate) enum ClientCall {
    /// What a client's line says.
    Command,
    /// The actions that a text says.
    Actions,
    /// What lines say that have each byte but the line feed in the place of `@`.
    EachByte,
}

/// The call of a name.
pub(crate) fn client_call(name: &str) -> Option<ClientCall> {
    match name {
        "command" => Some(ClientCall::Command),
        "actions" => Some(ClientCall::Actions),
        "each_byte" => Some(ClientCall::EachByte),
        _ => None,
    }
}

fn on_or_off(on: bool) -> &'static str {
    if on { "on" } else { "off" }
}

// Tells which cell gets which number.
fn tell_set(name: &[u8], number: i128, report: &mut Report) {
    report.named("set", name);
    report.word(" ");
    report.value(number);
}

// Tells which job is turned on or off.
fn tell_job(name: &[u8], instance: u64, on: bool, report: &mut Report) {
    report.named("job", name);
    report.number(" ", instance, " ");
    report.word(on_or_off(on));
}

// Tells when a run stops.
fn tell_stop(at: Option<u64>, report: &mut Report) {
    match at {
        Some(tic) => report.number("stop at ", tic, ""),
        None => report.word("stop"),
    }
}

// Tells what is turned on or off.
fn tell_switch(word: &str, name: &[u8], on: bool, report: &mut Report) {
    report.named(word, name);
    report.word(" ");
    report.word(on_or_off(on));
}

// Tells what an action asks for.
fn tell_action(action: &Action, report: &mut Report) {
    match action {
        Action::SetCell { name, number } => tell_set(name.as_slice(), *number, report),
        Action::SetJob { name, instance, on } => tell_job(name.as_slice(), *instance, *on, report),
        Action::Freeze => report.word("freeze"),
        Action::Stop { at } => tell_stop(*at, report),
        Action::Checkpoint => report.word("checkpoint"),
        Action::SetGroup { name, on } => tell_switch("group", name.as_slice(), *on, report),
        Action::SetEvent { name, on } => tell_switch("event", name.as_slice(), *on, report),
    }
}

// Tells whether samples pause.
fn tell_pause(on: bool, report: &mut Report) {
    report.word("pause ");
    report.word(on_or_off(on));
}

// Tells what a command says.
fn tell_command(command: &Command, report: &mut Report) {
    match command {
        Command::Act(action) => tell_action(action, report),
        Command::Nothing => report.word("nothing"),
        Command::Resume => report.word("resume"),
        Command::Add { name } => report.named("add", name.as_slice()),
        Command::Remove { name } => report.named("remove", name.as_slice()),
        Command::Clear => report.word("clear"),
        Command::Cycle { tics } => report.number("cycle ", *tics, ""),
        Command::Pause { on } => tell_pause(*on, report),
        Command::Send => report.word("send"),
        Command::Exists { name } => report.named("exists", name.as_slice()),
        Command::Copy { mode } => report.number("copy ", u64::from(*mode), ""),
        Command::Exit => report.word("exit"),
        Command::Bad => report.word("bad"),
    }
}

/// What a client's line says.
pub(crate) fn command_of(alloc: Global, line: &[u8]) -> Result<Command, AllocError> {
    let line = Line::from_bytes(alloc, line)?;
    command(alloc, &line)
}

// Whether a variable is added that has this byte alone for its name.
fn is_named(command: &Command, byte: u8) -> bool {
    match command {
        Command::Add { name } => name.as_slice() == [byte].as_slice(),
        _ => false,
    }
}

// Tells what a command says, with `@` for a name that is this byte alone.
fn tell_with(command: &Command, byte: u8, report: &mut Report) {
    if is_named(command, byte) {
        report.named("add", b"@");
    } else {
        tell_command(command, report);
    }
}

// Tells the same of a client's line.
fn tell_line(alloc: Global, line: &[u8], byte: u8, report: &mut Report) -> Result<(), AllocError> {
    let command = command_of(alloc, line)?;
    tell_with(&command, byte, report);
    Ok(())
}

// Tells what a client's line says.
fn said(alloc: Global, line: &[u8], report: &mut Report) -> Result<(), AllocError> {
    report.word("> ");
    tell_line(alloc, line, b'@', report)?;
    report.word("\n");
    Ok(())
}

// Tells actions, with `;` between.
fn tell_actions(actions: &[Action], report: &mut Report) {
    for (index, action) in actions.iter().enumerate() {
        if index > 0 {
            report.word("; ");
        }
        tell_action(action, report);
    }
}

// Tells why a text says no actions.
fn tell_fault(fault: &ActionFault, report: &mut Report) {
    match fault {
        ActionFault::BadAction => report.word("refused BadAction"),
        ActionFault::OutOfMemory => report.word("refused OutOfMemory"),
    }
}

// Tells which actions a text says.
fn asked(alloc: Global, text: &[u8], report: &mut Report) {
    report.word("> ");
    match actions(alloc, text) {
        Ok(actions) => tell_actions(actions.as_slice(), report),
        Err(fault) => tell_fault(&fault, report),
    }
    report.word("\n");
}

// A line with a byte in the place of `@`.
fn with_byte(alloc: Global, line: &[u8], byte: u8) -> Result<Vec<u8>, AllocError> {
    let mut bytes = Vec::new(alloc);
    for old in line {
        let old = *old;
        bytes.push(if old == b'@' { byte } else { old })?;
    }
    Ok(bytes)
}

// Tells what a line says with a byte in the place of `@`.
fn tell_line_with(
    alloc: Global,
    line: &[u8],
    byte: u8,
    report: &mut Report,
) -> Result<(), AllocError> {
    let line = with_byte(alloc, line, byte)?;
    tell_line(alloc, &line, byte, report)
}

// The same as it is told.
fn told_with(alloc: Global, line: &[u8], byte: u8) -> Result<String, AllocError> {
    let mut told = Report::new(alloc);
    tell_line_with(alloc, line, byte, &mut told)?;
    told.finish()
}

// Tells the same for each byte but the line feed, which stands in no line.
fn said_with_each(alloc: Global, line: &[u8], report: &mut Report) -> Result<(), AllocError> {
    let mut runs = Runs::new();
    for byte in 0..=255u8 {
        if byte != b'\n' {
            runs.add(usize::from(byte), told_with(alloc, line, byte)?, report);
        }
    }
    runs.tell(report);
    Ok(())
}

/// Tells what a call comes to.
pub(crate) fn answer(
    alloc: Global,
    call: ClientCall,
    bytes: &[u8],
    report: &mut Report,
) -> Result<(), AllocError> {
    match call {
        ClientCall::Command => said(alloc, bytes, report),
        ClientCall::Actions => {
            asked(alloc, bytes, report);
            Ok(())
        }
        ClientCall::EachByte => said_with_each(alloc, bytes, report),
    }
}
