ghost use Rattle.std.specs.List.{list_any, prefix_len};
ghost use Rattle.std.specs.Str.{bytes_eq};
ghost use Rattle.std.specs.Prelude.{◌≡◌, ◌+◌, ◌∷◌, ◌<◌, ◌≤◌, ◌^◌, [], true, IfSome, drop, length};
ghost use Rattle.trick_text.specs.Pieces.{Within, before_close, begins_block_comment, begins_line_comment, begins_number, front, hexadecimal_digits, is_in_name, mark_len, name_front, number_front, pairs, text_front, whole_front};

use crate::bytes::{
    begins, begins_mark, begins_name, begins_number, digits_len, hexadecimal_len, is_quote,
    is_white, line_len, name_len, quoted_len, white_len,
};
use crate::number::{WHOLE_LIMIT, whole_value};
use crate::token::{Style, TokenKind};

/// What stands at the front of a text: each number is a count of bytes.
#[derive(Clone, Copy, Debug)]
pub enum Piece {
    /// White space or a comment.
    Blank(usize),
    Token(TokenKind, usize),
    /// The byte after so many others is bad.
    BadByte(usize),
    OpenComment,
    LongNumber,
}

fn begins_line_comment(style: Style, text: &[u8]) -> bool
    ensures { result ≡ begins_line_comment style text.now }
{
    match style {
        Style::SDefine => begins(text, b"//"),
        Style::Input => begins(text, b"#"),
        Style::Command => false,
    }
}

fn begins_block_comment(style: Style, text: &[u8]) -> bool
    ensures { result ≡ begins_block_comment style text.now }
{
    match style {
        Style::SDefine => begins(text, b"/*"),
        Style::Input | Style::Command => false,
    }
}

// How many bytes stand before the first `*/`.
fn before_close(text: &[u8]) -> Option<usize>
    ensures len { result ≡ before_close text.now }
    ensures within { IfSome result (λ n. n + 2 ≤ length text.now) }
{
    let mut n = 0;
    let mut rest = text;
    while let [_, after @ ..] = rest {
        if begins(rest, b"*/") {
            return Some(n);
        }
        n += 1;
        rest = after;
    }
    None
}

#[tactic(auto, unfolding(crate::specs::Pieces::name_front))]
fn name(text: &[u8]) -> Piece
    requires { 0 < prefix_len is_in_name text.now }
    ensures is { result ≡ name_front text.now }
    ensures within { Within result (length text.now) }
{
    let n = name_len(text);
    if n > 64 {
        Piece::BadByte(64)
    } else {
        Piece::Token(TokenKind::Name, n)
    }
}

fn hexadecimal_digits(text: &[u8]) -> usize
    ensures len { result ≡ hexadecimal_digits text.now }
    ensures within { 0 < result → result + 2 ≤ length text.now }
{
    if begins(text, b"0x") {
        hexadecimal_len(&text[2..])
    } else {
        0
    }
}

fn whole(n: usize, text: &[u8]) -> Piece
    requires some { 0 < n }
    requires inside { n ≤ length text.now }
    ensures is { result ≡ whole_front n text.now }
    ensures within { Within result (length text.now) }
{
    match whole_value(&text[..n], WHOLE_LIMIT) {
        None => Piece::LongNumber,
        Some(_) => Piece::Token(TokenKind::Whole, n),
    }
}

#[tactic(auto, unfolding(crate::specs::Pieces::number_front))]
fn number(text: &[u8]) -> Piece
    requires begins { begins_number text.now ≡ true }
    requires length { length text.now < 2 ^ 62 }
    ensures is { result ≡ number_front text.now }
    ensures within { Within result (length text.now) }
{
    let hexadecimal = hexadecimal_digits(text);
    if hexadecimal > 0 {
        return whole(2 + hexadecimal, text);
    }
    let digits = digits_len(text);
    if !begins(&text[digits..], b".") {
        return whole(digits, text);
    }
    let n = digits + 1 + digits_len(&text[digits + 1..]);
    if n <= 40 {
        Piece::Token(TokenKind::Decimal, n)
    } else {
        Piece::LongNumber
    }
}

#[tactic(auto, unfolding(crate::specs::Pieces::text_front))]
fn quoted(quote: u8, after: &[u8]) -> Piece
    requires { length after.now < 2 ^ 62 }
    ensures is { result ≡ text_front quote after.now }
    ensures within { Within result (length after.now + 1) }
{
    let n = quoted_len(quote, after);
    if begins(&after[n..], &[quote]) {
        Piece::Token(TokenKind::Text, n + 2)
    } else {
        Piece::BadByte(0)
    }
}

// Whether the two bytes are one mark.
fn is_pair(first: u8, second: u8) -> bool
    ensures { result ≡ list_any (λ mark. bytes_eq mark (first ∷ second ∷ [])) pairs }
{
    match first {
        b':' | b'#' => second == first,
        b'%' => second == b'{' || second == b'=',
        b'&' | b'|' | b'<' | b'>' | b'+' | b'-' => second == first || second == b'=',
        b'=' | b'!' | b'*' | b'/' | b'^' => second == b'=',
        _ => false,
    }
}

// How long the longest mark is that comes next.
#[tactic(auto, unfolding(crate::specs::Pieces::mark_len))]
fn mark_len(text: &[u8]) -> usize
    requires { 0 < length text.now }
    ensures len { result ≡ mark_len text.now }
    ensures some { 0 < result }
    ensures within { result ≤ length text.now }
{
    match text {
        [b'<', b'<', b'=', ..] | [b'>', b'>', b'=', ..] => 3,
        [first, second, ..] if is_pair(*first, *second) => 2,
        _ => 1,
    }
}

/// What stands at the front of a text.
#[tactic(auto, unfolding(crate::specs::Pieces::front))]
pub fn front(style: Style, text: &[u8]) -> Piece
    requires { length text.now < 2 ^ 62 }
    ensures is { result ≡ front style text.now }
    ensures within { Within result (length text.now) }
{
    let [first, after @ ..] = text else {
        return Piece::BadByte(0);
    };
    if is_white(*first) {
        Piece::Blank(white_len(text))
    } else if begins_line_comment(style, text) {
        Piece::Blank(line_len(text))
    } else if begins_block_comment(style, text) {
        match before_close(&text[2..]) {
            None => Piece::OpenComment,
            Some(n) => Piece::Blank(n + 4),
        }
    } else if begins_name(*first) {
        name(text)
    } else if begins_number(text) {
        number(text)
    } else if is_quote(style, *first) {
        quoted(*first, after)
    } else if begins_mark(*first) {
        Piece::Token(TokenKind::Mark, mark_len(text))
    } else {
        Piece::BadByte(0)
    }
}
