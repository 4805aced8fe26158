//! The tokens of a text of actions, with their bytes.

ghost use Rattle.std.specs.Prelude.{◌≡◌, All, IfOk, map};
ghost use Rattle.trick_command.specs.Lexemes.{bytes_of, lexemes_of, whole_in, time_in};
ghost use Rattle.trick_text.specs.Tokens.{ReadsAsToken, spelling};

use std::alloc::{AllocError, Global};
use trick_text::{Token, TokenKind, seconds, whole};

/// A token with its bytes, and the number that it stands for.
#[derive(Clone, Copy, Debug)]
pub struct CommandLexeme<'a> {
    pub kind: TokenKind,
    pub bytes: &'a [u8],
    /// Of a whole number its value, at most 2^63.
    pub whole: Option<u64>,
    /// Of a number of seconds that is a time its tics, at most 10^15.
    pub time: Option<u64>,
    ghost whole_is: { whole ≡ whole_in kind bytes.now },
    ghost time_is: { time ≡ time_in kind bytes.now },
}

fn whole_of(text: &[u8], token: &Token) -> Option<u64>
    requires { ReadsAsToken text.now token.now }
    ensures { result ≡ whole_in token.now.kind (spelling text.now token.now) }
{
    match token.kind {
        TokenKind::Whole => Some(whole(token, text)),
        _ => None,
    }
}

fn time_of(text: &[u8], token: &Token) -> Option<u64>
    requires { ReadsAsToken text.now token.now }
    ensures { result ≡ time_in token.now.kind (spelling text.now token.now) }
{
    match token.kind {
        TokenKind::Whole | TokenKind::Decimal => seconds(token, text).ok(),
        _ => None,
    }
}

/// A token of this text with its bytes.
pub fn lexeme_of<'a>(text: &'a [u8], token: &Token) -> CommandLexeme<'a>
    requires { ReadsAsToken text.now token.now }
    ensures kind { result.kind ≡ token.now.kind }
    ensures bytes { result.bytes.now ≡ spelling text.now token.now }
{
    CommandLexeme {
        kind: token.kind,
        bytes: token.spelling(text),
        whole: whole_of(text, token),
        time: time_of(text, token),
    }
}
