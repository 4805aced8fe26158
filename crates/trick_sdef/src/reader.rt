//! Simulation definitions, read whole.

ghost use Rattle.std.specs.Prelude.{◌≡◌, ◌≤◌, ◌-◌, All, Err, None, Ok, length, map, slice_get, take};
ghost use Rattle.trick_body_symbols.specs.Lexemes.{lexemes_of};
ghost use Rattle.trick_body_symbols.specs.Symbols.{number_of};
ghost use Rattle.trick_grammar.specs.Gives.{Gives, class_of};
ghost use Rattle.trick_grammar.specs.Text.{read_all};
ghost use Rattle.trick_lang.specs.Syntax.{definition_of};
ghost use Rattle.trick_sdef.specs.Answers.{IsRead, IsSDefine, bad_time, fault_of, fault_of_text, number_told, time_told, told_behind};
ghost use Rattle.trick_sdef_classes.specs.Profile.{file};
ghost use Rattle.trick_text.specs.Tokens.{IsCut, ReadsAsToken, last_line, spelling};
ghost use Rattle.trick_text.specs.declared.token.Style.TheVariants as style;

use crate::fault::SdefFault;
use std::alloc::Global;
use trick_base::Items;
use trick_body_symbols::{
    LIST_LIMIT, METHOD_LEVELS, NESTING_LIMIT, Source, Symbol, Token, lexemes, told, told_line,
};
use trick_grammar::{GrammarStop, Refusal};
use trick_lang::syntax::{Definition, SDefine};
use trick_sdef_classes::read_file;
use trick_text::{FirstFault, Style, TextFault, TimeFault, TokenKind, cut, last_line, seconds};

// The fault of a number of seconds.
fn time_told(line: u32, tics: Result<u64, TimeFault>) -> SdefFault
    ensures { result ≡ time_told line tics }
{
    match tics {
        Err(fault) => SdefFault::Time(fault),
        Ok(_) => SdefFault::Expected { line },
    }
}

// The fault of a token that is no time.
fn number_told(text: &[u8], token: &trick_text::Token) -> SdefFault
    requires { ReadsAsToken text.now token.now }
    ensures { result ≡ number_told token.now.kind token.now.line (spelling text.now token.now) }
{
    let line = token.line;
    match token.kind {
        TokenKind::Whole => time_told(line, seconds(token, text)),
        TokenKind::Decimal => time_told(line, seconds(token, text)),
        TokenKind::Name | TokenKind::Text | TokenKind::Mark => SdefFault::Expected { line },
    }
}

// The fault of the token at this index, which is no time.
fn bad_time(text: &[u8], tokens: &[trick_text::Token], index: usize) -> SdefFault
    requires short { length text.now ≤ 16777216 }
    requires tokens { All (ReadsAsToken text.now) tokens.now }
    ensures { result ≡ bad_time text.now (slice_get tokens.now index) }
{
    if index < tokens.len() {
        number_told(text, &tokens[index])
    } else {
        SdefFault::Expected {
            line: last_line(text),
        }
    }
}

// The fault of a refusal, with its limit.
fn fault_of(reason: Refusal, line: u32, bad: SdefFault) -> SdefFault
    ensures { result ≡ fault_of reason line bad }
{
    match reason {
        Refusal::Expected => SdefFault::Expected { line },
        Refusal::NotInProfile | Refusal::BadName => SdefFault::NotInProfile { line },
        Refusal::TooLong => SdefFault::LongList {
            line,
            limit: LIST_LIMIT as u32,
        },
        Refusal::TooDeep => SdefFault::LongList {
            line,
            limit: NESTING_LIMIT as u32,
        },
        Refusal::BadHeader | Refusal::BadLoop => SdefFault::LoopBound { line },
        Refusal::BadTime => bad,
    }
}

// What is read: the tokens before the text's first fault, and as a grammar sees them.
#[derive(Clone, Copy)]
struct Cut<'t> {
    text: &'t [u8],
    tokens: &'t [trick_text::Token],
    lexemes: &'t [Token],
}

// The fault that a refusal of the rest of these tokens is told by.
fn told_by(read: Cut, reason: Refusal, rest: &[Token]) -> SdefFault
    requires short { length read.text.now ≤ 16777216 }
    requires tokens { All (ReadsAsToken read.text.now) read.tokens.now }
    ensures { result ≡ told_behind read.entry.text.now read.entry.tokens.now
        (take (length read.entry.lexemes.now - length rest.now) read.entry.lexemes.now)
        (record { kind = reason; rest = rest.now }) }
{
    let count = read.lexemes.len().saturating_sub(rest.len());
    let front = &read.lexemes[..count];
    let line = told_line(last_line(read.text), reason, front, rest);
    let bad = bad_time(read.text, read.tokens, count);
    fault_of(told(reason, rest), line, bad)
}

fn fault_of_text(fault: TextFault) -> SdefFault
    ensures { result ≡ fault_of_text fault }
{
    match fault {
        TextFault::OutOfMemory => SdefFault::OutOfMemory,
        other => SdefFault::Text(other),
    }
}

fn read_to_end<'a>(
    alloc: Global,
    text: &[u8],
    tokens: &'a [Token],
) -> Result<Vec<Definition>, GrammarStop<'a, Symbol>>
    ensures { Gives (λ found. map definition_of found.items) result
        (read_all number_of class_of (file text.now) tokens.now) }
{
    let source = Source {
        text,
        limit: LIST_LIMIT,
        scope: &[],
    };
    let (found, rest) = read_file(alloc, source, METHOD_LEVELS, tokens)?;
    match rest {
        [] => Ok(found),
        [_, ..] => Err(GrammarStop::At(Refusal::Expected, rest)),
    }
}

// The refusal of a token, or of the end where no fault of the text stands there.
fn refused(read: Cut, reason: Refusal, rest: &[Token], fault: Option<FirstFault>) -> SdefFault
    requires short { length read.text.now ≤ 16777216 }
    requires tokens { All (ReadsAsToken read.text.now) read.tokens.now }
    requires lexemes { read.lexemes.now ≡ lexemes_of read.text.now read.tokens.now }
    ensures { read_all number_of class_of (file read.entry.text.now) read.entry.lexemes.now
        ≡ Err (record { kind = reason; rest = rest.now })
        → IsRead read.entry.text.now read.entry.tokens.now fault (Err result) }
{
    match fault {
        None => told_by(read, reason, rest),
        Some(first) => match rest {
            [] => SdefFault::Text(first.fault),
            [_, ..] => told_by(read, reason, rest),
        },
    }
}

// The definition that all tokens of a text are, with what is known of it.
fn whole_of(read: Cut, definitions: Vec<Definition>) -> SDefine
    requires cut { IsCut style.SDefine read.text.now read.tokens.now None }
    requires lexemes { read.lexemes.now ≡ lexemes_of read.text.now read.tokens.now }
    requires read { read_all number_of class_of (file read.text.now) read.lexemes.now
        ≡ Ok (map definition_of definitions.items) }
    ensures { result.definitions ≡ definitions.items }
{
    SDefine {
        definitions: Items::from_vec(definitions),
    }
}

fn read_cut(alloc: Global, read: Cut, fault: Option<FirstFault>) -> Result<SDefine, SdefFault>
    requires short { length read.text.now ≤ 16777216 }
    requires cut { IsCut style.SDefine read.text.now read.tokens.now fault }
    requires lexemes { read.lexemes.now ≡ lexemes_of read.text.now read.tokens.now }
    ensures { IsRead read.entry.text.now read.entry.tokens.now fault result }
{
    match read_to_end(alloc, read.text, read.lexemes) {
        Ok(definitions) => match fault {
            None => Ok(whole_of(read, definitions)),
            Some(first) => Err(SdefFault::Text(first.fault)),
        },
        Err(GrammarStop::Memory) => Err(SdefFault::OutOfMemory),
        Err(GrammarStop::At(reason, rest)) => Err(refused(read, reason, rest, fault)),
    }
}

// Reads the tokens of a text before its first fault.
fn read_whole(
    alloc: Global,
    text: &[u8],
    tokens: &[trick_text::Token],
    fault: Option<FirstFault>,
) -> Result<SDefine, SdefFault>
    requires { IsCut style.SDefine text.now tokens.now fault }
    ensures { IsSDefine text.now result }
{
    match lexemes(alloc, text, tokens) {
        Ok(found) => {
            let read = Cut {
                text,
                tokens,
                lexemes: &found,
            };
            read_cut(alloc, read, fault)
        }
        Err(_) => Err(SdefFault::OutOfMemory),
    }
}

/// Reads a simulation definition, which is all of the text. A list has at most 4,096 items, and at most
/// 64 levels nest. It takes time and memory as the text is long.
pub fn read_sdef(alloc: Global, text: &[u8]) -> Result<SDefine, SdefFault>
    ensures { IsSDefine text.now result }
{
    match cut(alloc, text, Style::SDefine) {
        Ok(whole) => read_whole(alloc, text, &whole.tokens, whole.fault),
        Err(fault) => Err(fault_of_text(fault)),
    }
}
