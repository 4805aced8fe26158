//! What the cutting of texts answers: tokens, their numbers and their lines.

use crate::call::{Call, refused};
use std::alloc::{AllocError, Global};
use trick_cases_report::Report;
use trick_text::{
    CutText, FirstFault, Style, TEXT_LIMIT, TextFault, TimeFault, Token, TokenKind, cut, last_line,
    laws, number_of, seconds, tokens, whole,
};

// How many tokens of a text are shown at most, and how many bytes of one.
const SHOWN: usize = 100;

// The style that a call names first.
fn style_of(call: &Call<'_>) -> Style {
    match call.word(0) {
        "s_define" => Style::SDefine,
        "input" => Style::Input,
        _ => Style::Command,
    }
}

// The letter of a kind.
fn letter(kind: TokenKind) -> &'static str {
    match kind {
        TokenKind::Name => "N:",
        TokenKind::Whole => "W:",
        TokenKind::Decimal => "D:",
        TokenKind::Text => "T:",
        TokenKind::Mark => "M:",
    }
}

// Adds a token: the letter of its kind and its first bytes.
fn first_bytes(text: &[u8], token: &Token, report: &mut Report) {
    report.word(letter(token.kind));
    let bytes = text.get(token.start..token.end).unwrap_or(b"");
    match bytes.get(..SHOWN) {
        Some(first) => {
            report.bytes(first);
            report.number(".. of ", bytes.len() as u64, " bytes");
        }
        None => report.bytes(bytes),
    }
}

// Adds the first tokens of a text, and how many there are where not all are shown.
fn first_tokens(text: &[u8], found: &[Token], report: &mut Report) {
    let Some((first, others)) = found.split_first() else {
        report.word("no token");
        return;
    };
    first_bytes(text, first, report);
    for token in others.iter().take(SHOWN - 1) {
        report.word(" ");
        first_bytes(text, token, report);
    }
    if found.len() > SHOWN {
        report.number(" .. of ", found.len() as u64, " tokens");
    }
}

/// The first tokens of a text.
pub(crate) fn tokens_of(alloc: Global, call: &Call<'_>, report: &mut Report) {
    match tokens(alloc, call.text, style_of(call)) {
        Ok(found) => first_tokens(call.text, &found, report),
        Err(fault) => refused(fault, report),
    }
}

// Adds the lines of tokens.
fn lines(found: &[Token], report: &mut Report) {
    report.word("lines");
    for token in found {
        report.number(" ", u64::from(token.line), "");
    }
}

/// The lines of the tokens of a text.
pub(crate) fn lines_of(alloc: Global, call: &Call<'_>, report: &mut Report) {
    match tokens(alloc, call.text, style_of(call)) {
        Ok(found) => lines(&found, report),
        Err(fault) => refused(fault, report),
    }
}

// Adds how many tokens stand before the first fault of a text, and that fault.
fn front(found: &CutText, report: &mut Report) {
    report.number("", found.tokens.len() as u64, " tokens");
    if let Some(FirstFault { fault, start, line }) = found.fault {
        report.number(", then from ", start as u64, " in line ");
        report.number("", u64::from(line), ": ");
        report.value(fault);
    }
}

/// What stands before the first fault of a text.
pub(crate) fn cut_of(alloc: Global, call: &Call<'_>, report: &mut Report) {
    match cut(alloc, call.text, style_of(call)) {
        Ok(found) => front(&found, report),
        Err(fault) => refused(fault, report),
    }
}

/// The last line of a text.
pub(crate) fn last_line_of(call: &Call<'_>, report: &mut Report) {
    let text = call.text;
    if text.len() > TEXT_LIMIT {
        report.word("too long");
        return;
    }
    report.value(last_line(text));
}

/// What a whole number alone in its text stands for.
pub(crate) fn whole_of(alloc: Global, text: &[u8], report: &mut Report) {
    laws::all_are_tokens();
    let Ok(found) = tokens(alloc, text, Style::Command) else {
        report.word("no tokens");
        return;
    };
    match found.as_slice() {
        [token] if token.kind == TokenKind::Whole => report.value(whole(token, text)),
        _ => report.word("no whole number"),
    }
}

// Adds the tics of a number of seconds.
fn tics(tics: Result<u64, TimeFault>, report: &mut Report) {
    match tics {
        Ok(tics) => report.value(tics),
        Err(fault) => refused(fault, report),
    }
}

/// The tics of a number of seconds, which stands alone in its text.
pub(crate) fn seconds_of(alloc: Global, text: &[u8], report: &mut Report) {
    laws::all_are_tokens();
    let Ok(found) = tokens(alloc, text, Style::Command) else {
        report.word("no tokens");
        return;
    };
    match found.as_slice() {
        [token] if token.kind == TokenKind::Whole => tics(seconds(token, text), report),
        [token] if token.kind == TokenKind::Decimal => tics(seconds(token, text), report),
        _ => report.word("no number"),
    }
}

/// The number of the token that stands alone in its text.
pub(crate) fn number_of_token(alloc: Global, text: &[u8], report: &mut Report) {
    laws::all_are_tokens();
    let Ok(found) = tokens(alloc, text, Style::SDefine) else {
        report.word("no tokens");
        return;
    };
    match found.as_slice() {
        [token] => report.value(number_of(token, text)),
        _ => report.word("not one token"),
    }
}

/// The bytes of a token from one place of its text to another, and those between its quotes.
pub(crate) fn spelling_of(call: &Call<'_>, report: &mut Report) {
    let text = call.text;
    let token = Token {
        kind: TokenKind::Text,
        start: call.number(0) as usize,
        end: call.number(1) as usize,
        line: 1,
    };
    if token.start > token.end || token.end > text.len() {
        report.word("not in the text");
        return;
    }
    report.word("[");
    report.bytes(token.spelling(text));
    report.word("] in quotes [");
    report.bytes(token.quoted(text));
    report.word("]");
}

/// What a fault says, by its name and its number.
pub(crate) fn fault_of(call: &Call<'_>, report: &mut Report) {
    let at = call.number(1) as usize;
    let line = (call.number(1) % 1000) as u32;
    match call.word(0) {
        "LongText" => report.value(TextFault::LongText { limit: line }),
        "BadByte" => report.value(TextFault::BadByte { at }),
        "OpenComment" => report.value(TextFault::OpenComment { at }),
        "LongNumber" => report.value(TextFault::LongNumber { at }),
        "InexactTime" => report.value(TimeFault::InexactTime { line }),
        "TimeTooLarge" => report.value(TimeFault::TimeTooLarge { line }),
        _ => report.value(TextFault::from(AllocError)),
    }
}
