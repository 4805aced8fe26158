//! What pieces of forms read at the front of words.

ghost use Rattle.std.specs.Prelude.{◌≡◌, IfOk, option_map};
ghost use Rattle.trick_command.specs.Seen.{IsWithin, lexeme_in, lexemes_in, number_read, read_if_any};
ghost use Rattle.trick_model.specs.Forms.{Is, Quoted, Time, Whole, is_word, literal_of, quoted_of, read_literal, read_piece};

use crate::lexeme::CommandLexeme;
use crate::value::Value;
use std::alloc::{AllocError, Global};
use trick_base::Word;
use trick_text::TokenKind;

/// What a piece read: the value that it stands for, if any, and how many words.
#[derive(Debug, Drop)]
pub struct Read {
    pub value: Option<Value>,
    pub len: usize,
}

/// Whether the word has these bytes.
pub fn is_word(bytes: &[u8], word: &CommandLexeme) -> bool
    ensures { result ≡ is_word bytes.now (lexeme_in word.now) }
{
    bytes == word.bytes
}

/// A word that stands for nothing but itself.
pub fn read_word(bytes: &[u8], words: &[CommandLexeme]) -> Option<Read>
    ensures read { read_if_any words.now result ≡ read_piece (Is bytes.now) (lexemes_in words.now) }
    ensures within { IsWithin result words.now }
{
    match words {
        [word, ..] if is_word(bytes, word) => Some(Read {
            value: None,
            len: 1,
        }),
        _ => None,
    }
}

// A number of so many words, where there is one.
fn number(negative: bool, size: Option<u64>, len: usize) -> Option<Read>
    ensures { result ≡ number_read negative len size }
{
    let value = Some(Value::Number {
        negative,
        size: size?,
    });
    Some(Read { value, len })
}

pub fn read_whole(words: &[CommandLexeme]) -> Option<Read>
    ensures read { read_if_any words.now result ≡ read_piece Whole (lexemes_in words.now) }
    ensures within { IsWithin result words.now }
{
    match words {
        [] => None,
        [word, ..] => number(false, word.whole, 1),
    }
}

pub fn read_time(words: &[CommandLexeme]) -> Option<Read>
    ensures read { read_if_any words.now result ≡ read_piece Time (lexemes_in words.now) }
    ensures within { IsWithin result words.now }
{
    match words {
        [] => None,
        [word, ..] => number(false, word.time, 1),
    }
}

// `True` is 1 and `False` is 0.
fn literal_of(word: &CommandLexeme) -> Option<u64>
    ensures { result ≡ literal_of (lexeme_in word.now) }
{
    if is_word(b"True", word) {
        Some(1)
    } else if is_word(b"False", word) {
        Some(0)
    } else {
        word.whole
    }
}

pub fn read_literal(words: &[CommandLexeme]) -> Option<Read>
    ensures read { read_if_any words.now result ≡ read_literal (lexemes_in words.now) }
    ensures within { IsWithin result words.now }
{
    match words {
        [] => None,
        [word, behind @ ..] if is_word(b"-", word) => match behind {
            [] => None,
            [size, ..] => number(true, size.whole, 2),
        },
        [word, ..] => number(false, literal_of(word), 1),
    }
}

// The bytes between the quotes of a string.
fn quoted_of<'t>(word: &CommandLexeme<'t>) -> Option<&'t [u8]>
    ensures { option_map (λ b. b.now) result ≡ quoted_of (lexeme_in word.now) }
{
    match word.kind {
        TokenKind::Text => match word.bytes {
            [_, inner @ .., _] => Some(inner),
            _ => Some(&[]),
        },
        _ => None,
    }
}

pub fn read_quoted(alloc: Global, words: &[CommandLexeme]) -> Result<Option<Read>, AllocError>
    ensures read { IfOk result (λ read. read_if_any words.now read ≡ read_piece Quoted (lexemes_in words.now)) }
    ensures within { IfOk result (λ read. IsWithin read words.now) }
{
    let [word, ..] = words else {
        return Ok(None);
    };
    let Some(bytes) = quoted_of(word) else {
        return Ok(None);
    };
    let value = Some(Value::Bytes(Word::from_bytes(alloc, bytes)?));
    Ok(Some(Read { value, len: 1 }))
}
