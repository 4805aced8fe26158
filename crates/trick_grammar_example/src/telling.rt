//! The line that a refusal is told with.

ghost use Rattle.std.specs.Prelude.{◌≡◌, ◌∷◌, []};
ghost use Rattle.trick_grammar_example.specs.Told.{last_line_of, told_line};

use crate::word::{Token, Word};
use trick_grammar::{Refusal, line_of, next_is};

fn line_at(word: Word, line: u32, token: &Token) -> u32
    ensures { result ≡ last_line_of word line (token.now ∷ []) }
{
    if next_is(&[*token], word) {
        token.line
    } else {
        line
    }
}

/// The line of the last token of a class, and the given one where there is none.
fn last_line_of(word: Word, line: u32, tokens: &[Token]) -> u32
    ensures { result ≡ last_line_of word line tokens.now }
{
    let mut found = line;
    let mut rest = tokens;
    while let [token, after @ ..] = rest {
        found = line_at(word, found, token);
        rest = after;
    }
    found
}

/// The line that a refusal of the next token is told with. `front` stands before it, and the text has
/// `last_line` lines.
pub fn told_line(last_line: u32, reason: Refusal, front: &[Token], rest: &[Token]) -> u32
    ensures { result ≡ told_line last_line reason front.now rest.now }
{
    match reason {
        Refusal::BadHeader => last_line_of(Word::For, last_line, front),
        Refusal::BadLoop => last_line_of(Word::Name, last_line, front),
        _ => line_of(rest, last_line),
    }
}
