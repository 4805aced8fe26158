//! The code and the line that a refusal is told with.

ghost use Rattle.std.specs.Prelude.{◌≡◌, ◌∷◌, []};
ghost use Rattle.trick_body_symbols.specs.Told.{assignment_line, line_back, loop_line, told, told_line};

use crate::symbol::{Symbol, Token};
use trick_grammar::{Refusal, line_of, next_is, next_is_one_of};

/// The reason that a refusal of the next token is told with.
pub fn told(reason: Refusal, rest: &[Token]) -> Refusal
    ensures { result ≡ told reason rest.now }
{
    match reason {
        Refusal::Expected => {
            if next_is_one_of(rest, &[Symbol::Outside, Symbol::Return]) {
                Refusal::NotInProfile
            } else {
                Refusal::Expected
            }
        }
        Refusal::BadName => Refusal::NotInProfile,
        other => other,
    }
}

/// The line of the token that stands so many places before the end, and the given one where there is
/// none.
fn line_back(line: u32, places: usize, tokens: &[Token]) -> u32
    ensures { result ≡ line_back line places tokens.now }
{
    match tokens.get(tokens.len().saturating_sub(places)) {
        None => line,
        Some(token) => token.line,
    }
}

fn loop_line_at(line: u32, token: &Token) -> u32
    ensures { result ≡ loop_line line (token.now ∷ []) }
{
    if next_is(&[*token], Symbol::For) {
        token.line
    } else {
        line
    }
}

/// The line of the last `for`, and the given one where there is none.
fn loop_line(line: u32, tokens: &[Token]) -> u32
    ensures { result ≡ loop_line line tokens.now }
{
    let mut found = line;
    let mut rest = tokens;
    while let [token, after @ ..] = rest {
        found = loop_line_at(found, token);
        rest = after;
    }
    found
}

/// The line of the statement that assigns to the name of a loop.
fn assignment_line(line: u32, front: &[Token], rest: &[Token]) -> u32
    ensures { result ≡ assignment_line line front.now rest.now }
{
    if next_is(rest, Symbol::Semicolon) {
        line_back(line, 2, front)
    } else {
        line_back(line, 1, front)
    }
}

/// The line that a refusal of the next token is told with. `front` stands before it, and the text has
/// `last_line` lines.
pub fn told_line(last_line: u32, reason: Refusal, front: &[Token], rest: &[Token]) -> u32
    ensures { result ≡ told_line last_line reason front.now rest.now }
{
    match reason {
        Refusal::BadHeader => loop_line(last_line, front),
        Refusal::BadLoop => assignment_line(last_line, front, rest),
        Refusal::BadName => line_back(last_line, 1, front),
        _ => line_of(rest, last_line),
    }
}
