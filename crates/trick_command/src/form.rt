//! Words as one of the forms.

ghost use Rattle.std.specs.Prelude.{◌≡◌, ◌++◌, IfOk, option_map};
ghost use Rattle.trick_command.specs.Rows.{form_of};
ghost use Rattle.trick_command.specs.Seen.{IsWithin, lexemes_in, piece_in, pieces_in, read_if_any, value_if_any, values_in};
ghost use Rattle.trick_model.specs.Commands.{action_of, flag_at, integer_at, text_at, whole_at};
ghost use Rattle.trick_model.specs.Forms.{read_piece, read_pieces};

use crate::lexeme::CommandLexeme;
use crate::path::read_path;
use crate::piece::Piece;
use crate::read::{Read, read_literal, read_quoted, read_time, read_whole, read_word};
use crate::row::{Row, pieces, rows};
use crate::value::Value;
use std::alloc::{AllocError, Global};
use trick_base::{Items, Word};
use trick_model::Action;

fn read_piece(
    alloc: Global,
    piece: Piece,
    words: &[CommandLexeme],
) -> Result<Option<Read>, AllocError>
    ensures read { IfOk result (λ read. read_if_any words.now read
        ≡ read_piece (piece_in piece) (lexemes_in words.now)) }
    ensures within { IfOk result (λ read. IsWithin read words.now) }
{
    match piece {
        Piece::Is(bytes) => Ok(read_word(bytes, words)),
        Piece::Quoted => read_quoted(alloc, words),
        Piece::Whole => Ok(read_whole(words)),
        Piece::Time => Ok(read_time(words)),
        Piece::Literal => Ok(read_literal(words)),
        Piece::Path => read_path(alloc, words),
    }
}

// Keeps the value of a piece, if it has one.
fn keep(values: &mut Vec<Value>, value: Option<Value>) -> Result<(), AllocError>
    ensures { IfOk result (λ _. values_in values.new.items ≡ values_in values.old.items ++ value_if_any value) }
{
    if let Some(value) = value {
        values.push(value)?;
    }
    Ok(())
}

/// The values of pieces that stand for all of these words.
pub fn read_pieces(
    alloc: Global,
    pieces: &[Piece],
    words: &[CommandLexeme],
) -> Result<Option<Vec<Value>>, AllocError>
    ensures { IfOk result (λ found. option_map (λ v. values_in v.items) found
        ≡ read_pieces (pieces_in pieces.now) (lexemes_in words.now)) }
{
    let mut values = Vec::new(alloc);
    let mut rest = words;
    for piece in pieces {
        let Some(read) = read_piece(alloc, *piece, rest)? else {
            return Ok(None);
        };
        let Read { value, len } = read;
        keep(&mut values, value)?;
        rest = &rest[len..];
    }
    match rest {
        [] => Ok(Some(values)),
        [_, ..] => Ok(None),
    }
}

/// The bytes of the value at this place.
pub fn text_at(alloc: Global, values: &[Value], at: usize) -> Result<Word, AllocError>
    ensures { IfOk result (λ text. text ≡ text_at (values_in values.now) at) }
{
    match values.get(at) {
        Some(Value::Bytes(bytes)) => bytes.try_clone(),
        Some(Value::Number { .. }) | None => Ok(Items::new(alloc)),
    }
}

// The number of the value at this place.
fn integer_at(values: &[Value], at: usize) -> i128
    ensures { result ≡ integer_at (values_in values.now) at }
{
    match values.get(at) {
        Some(Value::Number { negative, size }) => {
            let size = i128::from(*size);
            if *negative { -size } else { size }
        }
        Some(Value::Bytes(_)) | None => 0,
    }
}

/// The number of the value at this place, which is none below 0.
pub fn whole_at(values: &[Value], at: usize) -> u64
    ensures { result ≡ whole_at (values_in values.now) at }
{
    match values.get(at) {
        Some(Value::Number { size, .. }) => *size,
        Some(Value::Bytes(_)) | None => 0,
    }
}

// A flag is on where its literal is not 0.
fn flag_at(values: &[Value], at: usize) -> bool
    ensures { result ≡ flag_at (values_in values.now) at }
{
    integer_at(values, at) != 0
}

// The action of a row with these values.
fn action(alloc: Global, row: Row, values: &[Value]) -> Result<Action, AllocError>
    ensures { IfOk result (λ action. action ≡ (form_of row).made (values_in values.now)) }
{
    let name = text_at(alloc, values, 0)?;
    match row {
        Row::Assign => Ok(set_cell(name, values)),
        Row::SetVariable => Ok(set_cell(name, values)),
        Row::SetJob => Ok(set_job(name, values)),
        Row::Freeze => Ok(Action::Freeze),
        Row::ExecFreeze => Ok(Action::Freeze),
        Row::Stop => Ok(Action::Stop { at: None }),
        Row::StopAt => Ok(Action::Stop {
            at: Some(whole_at(values, 0)),
        }),
        Row::Checkpoint => Ok(Action::Checkpoint),
        Row::EnableGroup => Ok(Action::SetGroup { name, on: true }),
        Row::DisableGroup => Ok(Action::SetGroup { name, on: false }),
        Row::ActivateEvent => Ok(Action::SetEvent { name, on: true }),
        Row::DeactivateEvent => Ok(Action::SetEvent { name, on: false }),
    }
}

fn set_cell(name: Word, values: &[Value]) -> Action
    ensures { result ≡ Action.SetCell name (integer_at (values_in values.now) 1) }
{
    Action::SetCell {
        name,
        number: integer_at(values, 1),
    }
}

fn set_job(name: Word, values: &[Value]) -> Action
    ensures { result ≡ Action.SetJob name (whole_at (values_in values.now) 1) (flag_at (values_in values.now) 2) }
{
    Action::SetJob {
        name,
        instance: whole_at(values, 1),
        on: flag_at(values, 2),
    }
}

/// The action that words say.
pub fn action_of(alloc: Global, words: &[CommandLexeme]) -> Result<Option<Action>, AllocError>
    ensures { IfOk result (λ action. action ≡ action_of (lexemes_in words.now)) }
{
    for row in rows() {
        if let Some(values) = read_pieces(alloc, pieces(*row), words)? {
            return Ok(Some(action(alloc, *row, &values)?));
        }
    }
    Ok(None)
}
