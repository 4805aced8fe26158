//! The tokens of an input with what the forms of lines and their values see of them.

ghost use Rattle.std.specs.Prelude.{◌≡◌, All, IfOk, map};
ghost use Rattle.std.specs.List.{list_all};
ghost use Rattle.trick_input.specs.Classes.{class_of, is_name_text, looked_up, mark_classes, named_classes, text_class, whole_class};
ghost use Rattle.trick_input.specs.Lexemes.{lexeme_of, lexemes_of, time_in, whole_in};
ghost use Rattle.trick_input.specs.Seen.{all_seen, seen};
ghost use Rattle.trick_text.specs.Pieces.{begins_name, is_in_name};
ghost use Rattle.trick_text.specs.Tokens.{ReadsAsToken, spelling};

use crate::call::Time;
use crate::class::Class;
use std::alloc::{AllocError, Global};
use trick_text::{Token, TokenKind, seconds, whole};

/// A token of an input.
#[derive(Clone, Copy)]
pub struct InputLexeme<'a> {
    pub class: Class,
    pub bytes: &'a [u8],
    /// Of a whole number its value, and else 0.
    pub number: u64,
    /// Of a number of seconds its tics, or why it is no time.
    pub time: Time,
}

// Bytes and the class of a token that has them.
type Row = (&'static [u8], Class);

// Names with a class of their own.
const NAMED: [Row; 41] = [
    (b"trick", Class::Trick),
    (b"import", Class::LeftOut),
    (b"from", Class::LeftOut),
    (b"for", Class::LeftOut),
    (b"if", Class::LeftOut),
    (b"while", Class::LeftOut),
    (b"def", Class::LeftOut),
    (b"sim_services", Class::Services),
    (b"exec_set_software_frame", Class::SoftwareFrame),
    (b"stop", Class::Stop),
    (b"exec_set_terminate_time", Class::TerminateTime),
    (b"freeze", Class::Freeze),
    (b"exec_set_thread_process_type", Class::ProcessType),
    (b"exec_set_thread_amf_cycle_time", Class::AmfCycle),
    (b"exec_add_depends_on_job", Class::DependsOn),
    (b"exec_set_job_onoff", Class::SetJob),
    (b"TMM_declare_var_s", Class::Declare),
    (b"add_read", Class::AddRead),
    (b"DRAscii", Class::NewGroup),
    (b"new_event", Class::NewEvent),
    (b"add_data_record_group", Class::AddGroup),
    (b"add_event", Class::AddEvent),
    (b"PROCESS_TYPE_SCHEDULED", Class::ScheduledType),
    (b"PROCESS_TYPE_ASYNC_CHILD", Class::AsyncType),
    (b"PROCESS_TYPE_AMF_CHILD", Class::AmfType),
    (b"DR_Always", Class::Always),
    (b"DR_Changes", Class::Changes),
    (b"DR_Buffer", Class::Buffer),
    (b"DR_No_Buffer", Class::Buffer),
    (b"DR_Ring_Buffer", Class::Buffer),
    (b"set_cycle", Class::SetCycle),
    (b"add_variable", Class::AddVariable),
    (b"enable", Class::Enable),
    (b"disable", Class::Disable),
    (b"freq", Class::Frequency),
    (b"thisown", Class::ThisOwn),
    (b"condition", Class::Condition),
    (b"action", Class::Action),
    (b"activate", Class::Activate),
    (b"True", Class::True),
    (b"False", Class::False),
];

// Marks with a class of their own.
const MARKS: [Row; 8] = [
    (b".", Class::Dot),
    (b"[", Class::OpenBracket),
    (b"]", Class::CloseBracket),
    (b"(", Class::Open),
    (b")", Class::Close),
    (b",", Class::Comma),
    (b"=", Class::Assign),
    (b"-", Class::Minus),
];

// The class of the first row with these bytes, and else the given one.
fn looked_up(bytes: &[u8], rows: &[Row], other: Class) -> Class
    ensures { result ≡ looked_up bytes.now (map (λ row. (row.0.now, row.1)) rows.now) other }
{
    for row in rows {
        if bytes == row.0 {
            return row.1;
        }
    }
    other
}

// Whether a name may begin with the byte.
fn begins_name(byte: u8) -> bool
    ensures { result ≡ begins_name byte }
{
    byte.is_ascii_alphabetic() || byte == b'_'
}

// Whether this byte may stand in a name.
fn is_in_name(byte: u8) -> bool
    ensures { result ≡ is_in_name byte }
{
    byte.is_ascii_alphanumeric() || byte == b'_'
}

// Whether these bytes may stand in a name.
fn are_in_name(bytes: &[u8]) -> bool
    ensures { result ≡ list_all is_in_name bytes.now }
{
    for byte in bytes {
        if !is_in_name(*byte) {
            return false;
        }
    }
    true
}

// Whether the bytes are a name.
fn is_name_text(bytes: &[u8]) -> bool
    ensures { result ≡ is_name_text bytes.now }
{
    match bytes {
        [] => false,
        [first, others @ ..] => begins_name(*first) && are_in_name(others) && bytes.len() <= 64,
    }
}

fn whole_class(value: u64) -> Class
    ensures { result ≡ whole_class value }
{
    if value == 0 {
        Class::Zero
    } else {
        Class::Whole
    }
}

fn text_class(bytes: &[u8]) -> Class
    ensures { result ≡ text_class bytes.now }
{
    if is_name_text(bytes) {
        Class::NameText
    } else {
        Class::Text
    }
}

fn name_class(bytes: &[u8]) -> Class
    ensures { result ≡ looked_up bytes.now named_classes Class.Name }
{
    looked_up(bytes, &NAMED, Class::Name)
}

fn mark_class(bytes: &[u8]) -> Class
    ensures { result ≡ looked_up bytes.now mark_classes Class.Other }
{
    looked_up(bytes, &MARKS, Class::Other)
}

fn class_of(text: &[u8], token: &Token) -> Class
    requires { ReadsAsToken text.now token.now }
    ensures { result ≡ class_of token.now.kind (spelling text.now token.now) }
{
    match token.kind {
        TokenKind::Name => name_class(token.spelling(text)),
        TokenKind::Whole => whole_class(whole(token, text)),
        TokenKind::Decimal => Class::Decimal,
        TokenKind::Text => text_class(token.quoted(text)),
        TokenKind::Mark => mark_class(token.spelling(text)),
    }
}

fn whole_of(text: &[u8], token: &Token) -> u64
    requires { ReadsAsToken text.now token.now }
    ensures { result ≡ whole_in token.now.kind (spelling text.now token.now) }
{
    match token.kind {
        TokenKind::Whole => whole(token, text),
        _ => 0,
    }
}

fn time_of(text: &[u8], token: &Token) -> Time
    requires { ReadsAsToken text.now token.now }
    ensures { result ≡ time_in token.now.line token.now.kind (spelling text.now token.now) }
{
    match token.kind {
        TokenKind::Whole | TokenKind::Decimal => seconds(token, text),
        _ => Ok(0),
    }
}

fn lexeme_of<'a>(text: &'a [u8], token: &Token) -> InputLexeme<'a>
    requires { ReadsAsToken text.now token.now }
    ensures { seen result ≡ lexeme_of text.now token.now }
{
    InputLexeme {
        class: class_of(text, token),
        bytes: token.spelling(text),
        number: whole_of(text, token),
        time: time_of(text, token),
    }
}

/// These tokens of a text, in order.
pub fn lexemes<'a>(
    alloc: Global,
    text: &'a [u8],
    tokens: &[Token],
) -> Result<Vec<InputLexeme<'a>>, AllocError>
    requires { All (ReadsAsToken text.now) tokens.now }
    ensures { IfOk result (λ found. all_seen found.items ≡ lexemes_of text.now tokens.now) }
{
    let mut found = Vec::new(alloc);
    for token in tokens {
        found.push(lexeme_of(text, token))?;
    }
    Ok(found)
}
