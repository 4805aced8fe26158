//! Bodies and conditions, read whole.

ghost use Rattle.std.specs.Prelude.{◌≡◌, ◌≤◌, ◌<◌, ◌+◌, ◌-◌, ◌^◌, All, Err, drop, length, take};
ghost use Rattle.trick_body.specs.Answers.{IsBody, IsCondition, IsRead, condition, fault_of, fault_of_text};
ghost use Rattle.trick_body_symbols.specs.Lexemes.{lexemes_of};
ghost use Rattle.trick_body_symbols.specs.Symbols.{number_of};
ghost use Rattle.trick_body_symbols.specs.Told.{told, told_line};
ghost use Rattle.trick_grammar.specs.Gives.{Gives, class_of};
ghost use Rattle.trick_grammar.specs.Text.{read_all};
ghost use Rattle.trick_lang.specs.Syntax.{expression_of};
ghost use Rattle.trick_text.specs.Tokens.{IsCut, ReadsAsToken, last_line};
ghost use Rattle.trick_text.specs.declared.token.Style.TheVariants.{Command};

use crate::fault::BodyFault;
use std::alloc::Global;
use trick_body_statements::{read_expression, read_method};
use trick_body_symbols::{
    LIST_LIMIT, METHOD_LEVELS, NESTING_LIMIT, Source, Symbol, Token, lexemes, told, told_line,
};
use trick_grammar::{GrammarStop, Refusal};
use trick_lang::syntax::{Expr, Method};
use trick_text::{FirstFault, Style, TextFault, cut, last_line};

/// The fault of a refusal, with its limit.
fn fault_of(reason: Refusal, line: u32) -> BodyFault
    ensures { result ≡ fault_of reason line }
{
    match reason {
        Refusal::Expected | Refusal::BadTime => BodyFault::Expected { line },
        Refusal::NotInProfile | Refusal::BadName => BodyFault::NotInProfile { line },
        Refusal::TooLong => BodyFault::LongList {
            line,
            limit: LIST_LIMIT as u32,
        },
        Refusal::TooDeep => BodyFault::LongList {
            line,
            limit: NESTING_LIMIT as u32,
        },
        Refusal::BadHeader | Refusal::BadLoop => BodyFault::LoopBound { line },
    }
}

/// The fault that a refusal of the rest of these tokens is told by.
fn told_by(text: &[u8], tokens: &[Token], reason: Refusal, rest: &[Token]) -> BodyFault
    requires { length text.now ≤ 16777216 }
    ensures { result ≡ fault_of (told reason rest.now) (told_line (last_line text.now) reason
        (take (length tokens.now - length rest.now) tokens.now) rest.now) }
{
    let front = &tokens[..tokens.len().saturating_sub(rest.len())];
    let line = told_line(last_line(text), reason, front, rest);
    fault_of(told(reason, rest), line)
}

/// Reads one method from the token at `from` on: its name and its statements, and the place of the
/// token after it. At most 62 levels nest in its braces, and a list has at most 4,096 items. It takes
/// time and memory as its tokens do.
pub fn read_body(
    alloc: Global,
    text: &[u8],
    tokens: &[trick_text::Token],
    from: usize,
) -> Result<(Method, usize), BodyFault>
    requires tokens { All (ReadsAsToken text.now) tokens.now }
    requires short { length text.now ≤ 16777216 }
    requires from { from ≤ length tokens.now }
    ensures { IsBody text.now (lexemes_of text.now (drop from tokens.now)) from result }
{
    let tokens = match lexemes(alloc, text, &tokens[from..]) {
        Ok(found) => found,
        Err(_) => return Err(BodyFault::OutOfMemory),
    };
    read_lexemes(alloc, text, &tokens, from)
}

// The place after what was read.
fn place_behind(from: usize, tokens: &[Token], rest: &[Token]) -> usize
    requires { from + length tokens.now < 2 ^ 63 }
    ensures { result ≡ from + (length tokens.now - length rest.now) }
{
    from + tokens.len().saturating_sub(rest.len())
}

fn read_lexemes(
    alloc: Global,
    text: &[u8],
    tokens: &[Token],
    from: usize,
) -> Result<(Method, usize), BodyFault>
    requires short { length text.now ≤ 16777216 }
    requires from { from + length tokens.now < 2 ^ 63 }
    ensures { IsBody text.now tokens.now from result }
{
    let source = Source {
        text,
        limit: LIST_LIMIT,
        scope: &[],
    };
    match read_method(alloc, source, METHOD_LEVELS, tokens) {
        Ok(found) => {
            let to = place_behind(from, tokens, found.1);
            Ok((found.0, to))
        }
        Err(GrammarStop::Memory) => Err(BodyFault::OutOfMemory),
        Err(GrammarStop::At(reason, rest)) => Err(told_by(text, tokens, reason, rest)),
    }
}

/// Reads a condition, which is all of the text, cut in the style of commands. At most 64 levels nest in
/// it. It takes time and memory as its tokens do.
pub fn condition(alloc: Global, text: &[u8]) -> Result<Expr, BodyFault>
    ensures { IsCondition text.now result }
{
    match cut(alloc, text, Style::Command) {
        Ok(whole) => read_whole(alloc, text, &whole.tokens, whole.fault),
        Err(fault) => Err(fault_of_text(fault)),
    }
}

// Reads the tokens of a text before its first fault.
fn read_whole(
    alloc: Global,
    text: &[u8],
    tokens: &[trick_text::Token],
    fault: Option<FirstFault>,
) -> Result<Expr, BodyFault>
    requires { IsCut Command text.now tokens.now fault }
    ensures { IsCondition text.now result }
{
    match lexemes(alloc, text, tokens) {
        Ok(found) => read_cut(alloc, text, &found, fault),
        Err(_) => Err(BodyFault::OutOfMemory),
    }
}

fn fault_of_text(fault: TextFault) -> BodyFault
    ensures { result ≡ fault_of_text fault }
{
    match fault {
        TextFault::OutOfMemory => BodyFault::OutOfMemory,
        other => BodyFault::Text(other),
    }
}

fn read_cut(
    alloc: Global,
    text: &[u8],
    tokens: &[Token],
    fault: Option<FirstFault>,
) -> Result<Expr, BodyFault>
    requires { length text.now ≤ 16777216 }
    ensures { IsRead text.now tokens.now fault result }
{
    match read_to_end(alloc, text, tokens) {
        Ok(expression) => match fault {
            None => Ok(expression),
            Some(first) => Err(BodyFault::Text(first.fault)),
        },
        Err(GrammarStop::Memory) => Err(BodyFault::OutOfMemory),
        Err(GrammarStop::At(reason, rest)) => Err(refused(text, tokens, reason, rest, fault)),
    }
}

// The refusal of a token, or of the end where no fault of the text stands there.
fn refused(
    text: &[u8],
    tokens: &[Token],
    reason: Refusal,
    rest: &[Token],
    fault: Option<FirstFault>,
) -> BodyFault
    requires { length text.now ≤ 16777216 }
    ensures { read_all number_of class_of (condition text.now) tokens.now
        ≡ Err (record { kind = reason; rest = rest.now })
        → IsRead text.now tokens.now fault (Err result) }
{
    match fault {
        None => told_by(text, tokens, reason, rest),
        Some(first) => match rest {
            [] => BodyFault::Text(first.fault),
            [_, ..] => told_by(text, tokens, reason, rest),
        },
    }
}

fn read_to_end<'a>(
    alloc: Global,
    text: &[u8],
    tokens: &'a [Token],
) -> Result<Expr, GrammarStop<'a, Symbol>>
    ensures { Gives expression_of result
        (read_all number_of class_of (condition text.now) tokens.now) }
{
    let source = Source {
        text,
        limit: LIST_LIMIT,
        scope: &[],
    };
    let (expression, rest) = read_expression(alloc, source, NESTING_LIMIT, tokens)?;
    match rest {
        [] => Ok(expression),
        [_, ..] => Err(GrammarStop::At(Refusal::Expected, rest)),
    }
}
