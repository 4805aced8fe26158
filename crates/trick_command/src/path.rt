//! Full names outside quotes: a name, and members and indexes.

ghost use Rattle.std.specs.Prelude.{◌≡◌, ◌++◌, ◌+◌, ◌<◌, IfOk, OnOk, Some, codes, decimal, if◌then◌else◌, option_map};
ghost use Rattle.trick_command.specs.Paths.{AreThere, going_on};
ghost use Rattle.trick_command.specs.Seen.{IsWithin, lexeme_in, lexemes_in, read_if_any};
ghost use Rattle.trick_model.specs.Forms.{is_word, name_of, read_index, read_member, read_members, read_path};

use crate::lexeme::CommandLexeme;
use crate::read::{Read, is_word};
use crate::value::Value;
use itoa::Buffer;
use std::alloc::{AllocError, Global};
use trick_base::Items;
use trick_text::TokenKind;

fn push_member(name: &mut Vec<u8>, member: &[u8]) -> Result<(), AllocError>
    ensures { OnOk result (name.new.items ≡ name.old.items ++ codes "." ++ member.now) }
{
    name.extend_from_slice(b".")?;
    name.extend_from_slice(member)
}

fn push_index(name: &mut Vec<u8>, index: u64) -> Result<(), AllocError>
    ensures { OnOk result (name.new.items ≡ name.old.items ++ codes "[" ++ decimal index ++ codes "]") }
{
    name.extend_from_slice(b"[")?;
    name.extend_from_slice(Buffer::new().format(index).as_bytes())?;
    name.extend_from_slice(b"]")
}

// The bytes of a name.
fn name_of<'t>(word: &CommandLexeme<'t>) -> Option<&'t [u8]>
    ensures { option_map (λ b. b.now) result ≡ name_of (lexeme_in word.now) }
{
    match word.kind {
        TokenKind::Name => Some(word.bytes),
        _ => None,
    }
}

// Bytes that a full name has room for at first. A longer one grows it.
const ROOM: usize = 64;

// The bytes that a full name begins with.
fn begin_name(alloc: Global, front: &[u8]) -> Result<Vec<u8>, AllocError>
    ensures { IfOk result (λ name. name.items ≡ front.now) }
{
    let mut name = Vec::with_capacity(alloc, ROOM)?;
    name.extend_from_slice(front)?;
    Ok(name)
}

// Adds the member at the front of words to a name, and tells how many words it has.
fn take_member(name: &mut Vec<u8>, words: &[CommandLexeme]) -> Result<Option<usize>, AllocError>
    ensures read { IfOk result (λ len. going_on name.new.items words.now len
        ≡ read_member name.old.items (lexemes_in words.now)) }
    ensures there { IfOk result (λ len. AreThere len words.now) }
{
    let [word, ..] = words else {
        return Ok(None);
    };
    let Some(member) = name_of(word) else {
        return Ok(None);
    };
    push_member(name, member)?;
    Ok(Some(1))
}

// Adds the index at the front of words to a name, and tells how many words it has with its bracket.
fn take_index(name: &mut Vec<u8>, words: &[CommandLexeme]) -> Result<Option<usize>, AllocError>
    ensures read { IfOk result (λ len. going_on name.new.items words.now len
        ≡ read_index name.old.items (lexemes_in words.now)) }
    ensures there { IfOk result (λ len. AreThere len words.now) }
{
    let [word, close, ..] = words else {
        return Ok(None);
    };
    let Some(index) = word.whole else {
        return Ok(None);
    };
    if !is_word(b"]", close) {
        return Ok(None);
    }
    push_index(name, index)?;
    Ok(Some(2))
}

// Adds what this word begins, a member after `.` and else an index, and tells how many words follow.
fn take_part(
    name: &mut Vec<u8>,
    word: &CommandLexeme,
    words: &[CommandLexeme],
) -> Result<Option<usize>, AllocError>
    ensures read { IfOk result (λ len. going_on name.new.items words.now len
        ≡ (if is_word (codes ".") (lexeme_in word.now)
        then read_member name.old.items (lexemes_in words.now)
        else read_index name.old.items (lexemes_in words.now))) }
    ensures there { IfOk result (λ len. AreThere len words.now) }
{
    if is_word(b".", word) {
        take_member(name, words)
    } else {
        take_index(name, words)
    }
}

// The full name that begins with these bytes.
fn read_members(name: Vec<u8>, words: &[CommandLexeme]) -> Result<Option<Read>, AllocError>
    ensures read { IfOk result (λ read. read_if_any words.now read
        ≡ read_members name.items (lexemes_in words.now)) }
    ensures within { IfOk result (λ read. IsWithin read words.now) }
{
    let mut name = name;
    let mut rest = words;
    while let [word, after @ ..] = rest {
        if !is_word(b".", word) && !is_word(b"[", word) {
            return Ok(Some(whole_path(name, words.len() - rest.len())));
        }
        let Some(len) = take_part(&mut name, word, after)? else {
            return Ok(None);
        };
        rest = &after[len..];
    }
    Ok(Some(whole_path(name, words.len())))
}

// A full name of so many words.
fn whole_path(name: Vec<u8>, len: usize) -> Read
    ensures { result ≡ record { value = Some (Value.Bytes name.items); len = len } }
{
    Read {
        value: Some(Value::Bytes(Items::from_vec(name))),
        len,
    }
}

/// A full name.
pub fn read_path(alloc: Global, words: &[CommandLexeme]) -> Result<Option<Read>, AllocError>
    ensures read { IfOk result (λ read. read_if_any words.now read ≡ read_path (lexemes_in words.now)) }
    ensures within { IfOk result (λ read. IsWithin read words.now) }
{
    let [word, behind @ ..] = words else {
        return Ok(None);
    };
    let Some(name) = name_of(word) else {
        return Ok(None);
    };
    match read_members(begin_name(alloc, name)?, behind)? {
        None => Ok(None),
        Some(Read { value, len }) => Ok(Some(Read {
            value,
            len: len + 1,
        })),
    }
}
