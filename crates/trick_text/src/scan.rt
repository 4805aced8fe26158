ghost use Rattle.std.specs.Prelude.{◌≡◌, ◌==◌, ◌≤◌, IfErr, IfOk, count_by, length};
ghost use Rattle.trick_text.specs.Tokens.{AreAllTokens, IsCut, IsRefused, IsUncut, last_line};

use crate::fault::{FirstFault, TextFault};
use crate::piece::{Piece, front};
use crate::token::{Style, Token};
use std::alloc::Global;

/// How many bytes a text may have.
pub const TEXT_LIMIT: usize = 16_777_216;

/// What a text holds up to its first fault.
#[derive(Debug, Drop)]
pub struct CutText {
    /// The tokens before the first fault, in order; all of them, where the text has none.
    pub tokens: Vec<Token>,
    /// The first fault.
    pub fault: Option<FirstFault>,
}

// How many lines end in a piece of a text.
fn line_ends(piece: &[u8]) -> u32
    requires { length piece.now ≤ TEXT_LIMIT }
    ensures { result ≡ count_by (λ b. b == 10) piece.now }
{
    piece.iter().filter(|byte| **byte == b'\n').count() as u32
}

/// The line, from 1, of the last byte of a text. A text that ends with a line feed has no line
/// after it, and a text without bytes has one line. Takes no memory.
pub fn last_line(text: &[u8]) -> u32
    requires { length text.now ≤ TEXT_LIMIT }
    ensures { result ≡ last_line text.now }
{
    match text {
        [] => 1,
        [before @ .., _] => 1 + line_ends(before),
    }
}

// These tokens, with a fault after them.
fn cut_off(tokens: Vec<Token>, fault: TextFault, start: usize, line: u32) -> CutText
    ensures tokens { result.tokens.items ≡ tokens.items }
    ensures fault { result.fault ≡ Some (record { fault = fault; start = start; line = line }) }
{
    CutText {
        tokens,
        fault: Some(FirstFault { fault, start, line }),
    }
}

/// Cuts a text into its tokens, the longest at each place, up to its first fault. White space and
/// comments stand between the tokens. A text above the limit is refused whole.
pub fn cut(alloc: Global, text: &[u8], style: Style) -> Result<CutText, TextFault>
    ensures found { IfOk result (λ whole. IsCut style text.now whole.tokens.items whole.fault) }
    ensures refused { IfErr result (λ fault. IsUncut text.now fault) }
{
    if text.len() > TEXT_LIMIT {
        return Err(TextFault::LongText {
            limit: TEXT_LIMIT as u32,
        });
    }
    let mut tokens = Vec::new(alloc);
    let mut rest = text;
    let mut at = 0;
    let mut line: u32 = 1;
    while !rest.is_empty() {
        let len = match front(style, rest) {
            Piece::Blank(n) => n,
            Piece::Token(kind, n) => {
                tokens.push(Token {
                    kind,
                    start: at,
                    end: at + n,
                    line,
                })?;
                n
            }
            Piece::BadByte(n) => {
                return Ok(cut_off(tokens, TextFault::BadByte { at: at + n }, at, line));
            }
            Piece::OpenComment => {
                return Ok(cut_off(tokens, TextFault::OpenComment { at }, at, line));
            }
            Piece::LongNumber => {
                return Ok(cut_off(tokens, TextFault::LongNumber { at }, at, line));
            }
        };
        let (piece, after) = rest.split_at(len);
        line += line_ends(piece);
        at += len;
        rest = after;
    }
    Ok(CutText {
        tokens,
        fault: None,
    })
}

/// The tokens of a text, in order. The first fault of the text refuses it, each with its place in
/// bytes from 0; a text above the limit is refused before all else.
pub fn tokens(alloc: Global, text: &[u8], style: Style) -> Result<Vec<Token>, TextFault>
    ensures found { IfOk result (λ v. AreAllTokens style text.now v.items) }
    ensures refused { IfErr result (λ fault. IsRefused style text.now fault) }
{
    let CutText { tokens, fault } = cut(alloc, text, style)?;
    match fault {
        None => Ok(tokens),
        Some(first) => Err(first.fault),
    }
}
