//! Words as a client's line.

ghost use Rattle.std.specs.Prelude.{◌≡◌, IfOk};
ghost use Rattle.trick_command.specs.Rows.{line_form_of};
ghost use Rattle.trick_command.specs.Seen.{lexemes_in, values_in};
ghost use Rattle.trick_model.specs.Commands.{command_forms, command_in, command_or_bad, copy_command, cycle_command};
ghost use Rattle.trick_model.specs.Forms.{read_forms};

use crate::form::{action_of, read_pieces, text_at, whole_at};
use crate::lexeme::CommandLexeme;
use crate::line_row::{LineRow, line_pieces, line_rows};
use crate::value::Value;
use std::alloc::{AllocError, Global};
use trick_model::Command;

// A cycle of 0 is a bad command.
fn cycle(tics: u64) -> Command
    ensures { result ≡ cycle_command tics }
{
    if tics == 0 {
        Command::Bad
    } else {
        Command::Cycle { tics }
    }
}

// The copy modes are 1 and 2.
fn copy_mode(mode: u64) -> Command
    ensures { result ≡ copy_command mode }
{
    if mode == 1 || mode == 2 {
        Command::Copy { mode: mode as u8 }
    } else {
        Command::Bad
    }
}

// The command of a row with these values.
fn command(alloc: Global, row: LineRow, values: &[Value]) -> Result<Command, AllocError>
    ensures { IfOk result (λ command. command ≡ (line_form_of row).made (values_in values.now)) }
{
    let name = text_at(alloc, values, 0)?;
    match row {
        LineRow::Empty => Ok(Command::Nothing),
        LineRow::Resume => Ok(Command::Resume),
        LineRow::Add => Ok(Command::Add { name }),
        LineRow::Remove => Ok(Command::Remove { name }),
        LineRow::Clear => Ok(Command::Clear),
        LineRow::Cycle => Ok(cycle(whole_at(values, 0))),
        LineRow::Pause => Ok(Command::Pause { on: true }),
        LineRow::Unpause => Ok(Command::Pause { on: false }),
        LineRow::Send => Ok(Command::Send),
        LineRow::Exists => Ok(Command::Exists { name }),
        LineRow::Ascii => Ok(Command::Nothing),
        LineRow::ClientTag => Ok(Command::Nothing),
        LineRow::CopyMode => Ok(copy_mode(whole_at(values, 0))),
        LineRow::Exit => Ok(Command::Exit),
    }
}

// What words say that are no action.
fn other_command(alloc: Global, words: &[CommandLexeme]) -> Result<Command, AllocError>
    ensures { IfOk result (λ command. command ≡ command_or_bad (read_forms command_forms (lexemes_in words.now))) }
{
    for row in line_rows() {
        if let Some(values) = read_pieces(alloc, line_pieces(*row), words)? {
            return command(alloc, *row, &values);
        }
    }
    Ok(Command::Bad)
}

/// What words say that are one line of a client.
pub fn command_in(alloc: Global, words: &[CommandLexeme]) -> Result<Command, AllocError>
    ensures { IfOk result (λ command. command ≡ command_in (lexemes_in words.now)) }
{
    match action_of(alloc, words)? {
        Some(action) => Ok(Command::Act(action)),
        None => other_command(alloc, words),
    }
}
