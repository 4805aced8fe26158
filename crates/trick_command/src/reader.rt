//! Texts of actions, read whole.

ghost use Rattle.std.specs.Prelude.{◌≡◌, ◌≢◌, ◌∷◌, ◌<◌, ◌≤◌, [], All, IfOk, drop, length, take};
ghost use Rattle.trick_command.specs.Answers.{Answers, actions_in, actions_of_words, fault_of};
ghost use Rattle.trick_command.specs.Lexemes.{lexemes_of};
ghost use Rattle.trick_command.specs.Parts.{parts_from};
ghost use Rattle.trick_command.specs.Seen.{lexemes_in};
ghost use Rattle.trick_model.specs.Commands.{command_in, command_of, parts_of};
ghost use Rattle.trick_text.specs.Tokens.{ReadsAsToken, text_limit};

use crate::fault::ActionFault;
use crate::form::action_of;
use crate::lexeme::{CommandLexeme, lexeme_of};
use crate::line::command_in;
use crate::read::is_word;
use std::alloc::{AllocError, Global};
use trick_base::Line;
use trick_model::{Action, Command};
use trick_text::{Style, TextFault, Token, tokens};

// The tokens of this text with their bytes, in order.
fn lexemes<'a>(
    alloc: Global,
    text: &'a [u8],
    tokens: &[Token],
) -> Result<Vec<CommandLexeme<'a>>, AllocError>
    requires { All (ReadsAsToken text.now) tokens.now }
    ensures { IfOk result (λ found. lexemes_in found.items ≡ lexemes_of text.now tokens.now) }
{
    let mut found = Vec::with_capacity(alloc, tokens.len())?;
    for token in tokens {
        found.push(lexeme_of(text, token))?;
    }
    Ok(found)
}

// How many words stand before the first `;`.
fn part_len(words: &[CommandLexeme]) -> usize
    ensures parts { parts_of [] (lexemes_in words.now)
        ≡ lexemes_in (take result words.now) ∷ parts_from (drop result words.now) }
    ensures within { result ≤ length words.now }
{
    let mut len = 0;
    let mut rest = words;
    while let [word, after @ ..] = rest {
        if is_word(b";", word) {
            return len;
        }
        len += 1;
        rest = after;
    }
    len
}

// The actions of words with `;` between.
fn read_parts(alloc: Global, words: &[CommandLexeme]) -> Result<Vec<Action>, ActionFault>
    ensures { Answers (actions_of_words (lexemes_in words.now)) result }
{
    let mut found = Vec::new(alloc);
    let mut rest = words;
    loop {
        let len = part_len(rest);
        let Some(action) = action_of(alloc, &rest[..len])? else {
            return Err(ActionFault::BadAction);
        };
        found.push(action)?;
        if len == rest.len() {
            return Ok(found);
        }
        rest = &rest[len + 1..];
    }
}

// The actions of the tokens of a text.
fn read_tokens(alloc: Global, text: &[u8], tokens: &[Token]) -> Result<Vec<Action>, ActionFault>
    requires { All (ReadsAsToken text.now) tokens.now }
    ensures { Answers (actions_of_words (lexemes_of text.now tokens.now)) result }
{
    let words = lexemes(alloc, text, tokens)?;
    read_parts(alloc, &words)
}

// A text that is cut off says no actions.
fn fault_of(fault: TextFault) -> ActionFault
    ensures { result ≡ fault_of fault }
{
    match fault {
        TextFault::OutOfMemory => ActionFault::OutOfMemory,
        _ => ActionFault::BadAction,
    }
}

/// Reads the actions of a string of an input: one or more, with one `;` between two of them and none
/// after the last. The page FORMATS of the documents has their forms. A time is one of at most 10^15
/// tics; names, and numbers for cells, are not looked at. It takes time and memory as the text is long.
pub fn actions(alloc: Global, text: &[u8]) -> Result<Vec<Action>, ActionFault>
    ensures { Answers (actions_in text.now) result }
{
    match tokens(alloc, text, Style::Command) {
        Ok(found) => read_tokens(alloc, text, &found),
        Err(fault) => Err(fault_of(fault)),
    }
}

// What the tokens of a line say.
fn read_line(alloc: Global, text: &[u8], tokens: &[Token]) -> Result<Command, AllocError>
    requires { All (ReadsAsToken text.now) tokens.now }
    ensures { IfOk result (λ command. command ≡ command_in (lexemes_of text.now tokens.now)) }
{
    let words = lexemes(alloc, text, tokens)?;
    command_in(alloc, &words)
}

// A line that is cut off says nothing right.
fn bad_line(fault: TextFault) -> Result<Command, AllocError>
    ensures { IfOk result (λ command. (command ≡ Command.Bad) × (fault ≢ TextFault.OutOfMemory)) }
{
    match fault {
        TextFault::OutOfMemory => Err(AllocError),
        _ => Ok(Command::Bad),
    }
}

/// What a client's line says: an action, another command, or nothing right, which is `Bad`. The page
/// FORMATS of the documents has the forms. Names, and numbers for cells, are not looked at. A line of
/// more bytes than a text may have, 16,777,216, is `Bad`. It takes time and memory as the line is long.
pub fn command(alloc: Global, line: &Line) -> Result<Command, AllocError>
    ensures said { length line.now ≤ text_limit → IfOk result (λ command. command ≡ command_of line.now) }
    ensures long { text_limit < length line.now → IfOk result (λ command. command ≡ Command.Bad) }
{
    let text = line.as_slice();
    match tokens(alloc, text, Style::Command) {
        Ok(found) => read_line(alloc, text, &found),
        Err(fault) => bad_line(fault),
    }
}
