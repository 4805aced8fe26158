//! Classes of bytes, and how far a text stays in one.

ghost use Rattle.std.specs.Char.{is_ascii_digit, is_ascii_hexdigit};
ghost use Rattle.std.specs.List.{prefix_len};
ghost use Rattle.std.specs.Prelude.{◌≡◌, ◌≤◌, length};
ghost use Rattle.trick_text.specs.Pieces.{begins, begins_digit, begins_mark, begins_name, begins_number, is_in_line, is_in_name, is_in_text, is_quote, is_white};

use crate::token::Style;

/// Whether these bytes come next.
pub fn begins(text: &[u8], bytes: &[u8]) -> bool
    ensures { result ≡ begins bytes.now text.now }
{
    text.starts_with(bytes)
}

/// Whether the byte is white space.
pub fn is_white(byte: u8) -> bool
    ensures { result ≡ is_white byte }
{
    byte == b' ' || byte == b'\t' || byte == b'\r' || byte == b'\n'
}

/// Whether a name may begin with the byte.
pub fn begins_name(byte: u8) -> bool
    ensures { result ≡ begins_name byte }
{
    byte.is_ascii_alphabetic() || byte == b'_'
}

/// Whether a digit comes next.
pub fn begins_digit(text: &[u8]) -> bool
    ensures { result ≡ begins_digit text.now }
{
    match text {
        [] => false,
        [first, ..] => first.is_ascii_digit(),
    }
}

/// Whether a digit comes next, or a point and a digit.
pub fn begins_number(text: &[u8]) -> bool
    ensures { result ≡ begins_number text.now }
{
    match text {
        [] => false,
        [first, after @ ..] => { first.is_ascii_digit() || (*first == b'.' && begins_digit(after)) }
    }
}

/// Whether a string may stand between two of the byte.
pub fn is_quote(style: Style, byte: u8) -> bool
    ensures { result ≡ is_quote style byte }
{
    match style {
        Style::SDefine => byte == b'"',
        Style::Input | Style::Command => byte == b'"' || byte == b'\'',
    }
}

/// Whether the byte is visible and no single quote.
pub fn begins_mark(byte: u8) -> bool
    ensures { result ≡ begins_mark byte }
{
    byte.is_ascii_graphic() && byte != b'\''
}

/// How many bytes of white space stand at the front.
pub fn white_len(text: &[u8]) -> usize
    ensures len { result ≡ prefix_len is_white text.now }
    ensures within { result ≤ length text.now }
{
    text.iter().take_while(|byte| is_white(**byte)).count()
}

/// How many bytes stand before the line's end.
pub fn line_len(text: &[u8]) -> usize
    ensures len { result ≡ prefix_len is_in_line text.now }
    ensures within { result ≤ length text.now }
{
    text.iter().take_while(|byte| **byte != b'\n').count()
}

/// How many letters, digits and `_` stand at the front.
pub fn name_len(text: &[u8]) -> usize
    ensures len { result ≡ prefix_len is_in_name text.now }
    ensures within { result ≤ length text.now }
{
    text.iter()
        .take_while(|byte| byte.is_ascii_alphanumeric() || **byte == b'_')
        .count()
}

/// How many digits stand at the front.
pub fn digits_len(text: &[u8]) -> usize
    ensures len { result ≡ prefix_len is_ascii_digit text.now }
    ensures within { result ≤ length text.now }
{
    text.iter().take_while(|byte| byte.is_ascii_digit()).count()
}

/// How many hexadecimal digits of either case stand at the front.
pub fn hexadecimal_len(text: &[u8]) -> usize
    ensures len { result ≡ prefix_len is_ascii_hexdigit text.now }
    ensures within { result ≤ length text.now }
{
    text.iter()
        .take_while(|byte| byte.is_ascii_hexdigit())
        .count()
}

/// How many bytes stand before this quote and before the line's end.
pub fn quoted_len(quote: u8, text: &[u8]) -> usize
    ensures len { result ≡ prefix_len (is_in_text quote) text.now }
    ensures within { result ≤ length text.now }
{
    text.iter()
        .take_while(|byte| **byte != quote && **byte != b'\n')
        .count()
}
