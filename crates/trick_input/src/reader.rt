//! Inputs, read whole.

ghost use Rattle.std.specs.List.{prefix_len};
ghost use Rattle.std.specs.Prelude.{◌≡◌, ◌≤◌, ◌<◌, ◌∷◌, All, Err, IfOk, List, length, nat_eq, ℕ};
ghost use Rattle.trick_input.specs.Answers.{Answers, IsCall, IsInput, fault_of_text};
ghost use Rattle.trick_input.specs.Lexemes.{classes, line_of_words};
ghost use Rattle.trick_input.specs.Lines.{call_of, calls_of, cut_fault, fault_at, is_left_out, line_call, line_of, lines};
ghost use Rattle.trick_input.specs.Seen.{all_seen};
ghost use Rattle.trick_text.specs.Tokens.{IsCut, ReadsAsToken};
ghost use Rattle.trick_text.specs.declared.token.Style.TheVariants as style;

use crate::call::Call;
use crate::class::Class;
use crate::fault::InputFault;
use crate::lexeme::{InputLexeme, lexemes};
use crate::line::{Place, row_of};
use crate::plain::plain;
use crate::says::form_of;
use std::alloc::{AllocError, Global};
use trick_text::{FirstFault, Style, TextFault, Token, cut};

// Whether the line begins with a word, or with `trick.` and a name, that is left out, and stands there.
fn is_left_out(line: &[InputLexeme], left: usize) -> bool
    ensures { result ≡ is_left_out (classes (all_seen line.now)) left }
{
    match line {
        [] => false,
        [a] => a.class.is(Class::LeftOut) && left == 1,
        [a, _] => a.class.is(Class::LeftOut) && left == 2,
        [a, b, c, rest @ ..] => {
            (a.class.is(Class::LeftOut) && left == line.len())
                || (a.class.is(Class::Trick)
                    && b.class.is(Class::Dot)
                    && c.class.is_name()
                    && left == rest.len() + 1)
        }
    }
}

// How a line of this number is refused at a place.
fn fault_at(number: u32, line: &[InputLexeme], place: Place) -> InputFault
    ensures { result ≡ fault_at number (classes (all_seen line.now)) place }
{
    if is_left_out(line, place.left) {
        InputFault::NotInProfile { line: number }
    } else if place.due {
        InputFault::BadLiteral { line: number }
    } else {
        InputFault::Expected { line: number }
    }
}

// The number of a line with these tokens.
fn line_of(tokens: &[Token]) -> u32
    ensures { result ≡ line_of tokens.now }
{
    match tokens {
        [] => 0,
        [first, ..] => first.line,
    }
}

// The words of a line that count.
fn words<'t>(
    alloc: Global,
    text: &'t [u8],
    cut: bool,
    tokens: &[Token],
) -> Result<Vec<InputLexeme<'t>>, AllocError>
    requires { All (ReadsAsToken text.now) tokens.now }
    ensures { IfOk result (λ words. all_seen words.items ≡ line_of_words text.now cut tokens.now) }
{
    let all = lexemes(alloc, text, tokens)?;
    plain(alloc, cut, &all)
}

// A whole line.
fn read_line(alloc: Global, text: &[u8], tokens: &[Token]) -> Result<Call, InputFault>
    requires { All (ReadsAsToken text.now) tokens.now }
    ensures { IsCall (call_of text.now tokens.now) result }
{
    let words = words(alloc, text, false, tokens)?;
    let line = line_of(tokens);
    match row_of(&words) {
        Ok(row) => Ok(Call {
            form: form_of(alloc, row, &words)?,
            line,
        }),
        Err(place) => Err(fault_at(line, &words, place)),
    }
}

// The line on which a fault of the text stands: one of its tokens may be refused before.
fn read_cut(alloc: Global, text: &[u8], first: FirstFault, tokens: &[Token]) -> InputFault
    requires { All (ReadsAsToken text.now) tokens.now }
    ensures { IsCall (Err (cut_fault text.now first tokens.now)) (Err result) }
{
    let Ok(words) = words(alloc, text, true, tokens) else {
        return InputFault::OutOfMemory;
    };
    match row_of(&words) {
        Ok(_) => InputFault::Text(first.fault),
        Err(place) => {
            if place.left == 0 {
                InputFault::Text(first.fault)
            } else {
                fault_at(line_of(tokens), &words, place)
            }
        }
    }
}

fn read_next(
    alloc: Global,
    text: &[u8],
    fault: Option<FirstFault>,
    tokens: &[Token],
) -> Result<Call, InputFault>
    requires { All (ReadsAsToken text.now) tokens.now }
    ensures { IsCall (line_call text.now fault tokens.now) result }
{
    match fault {
        None => read_line(alloc, text, tokens),
        Some(first) => {
            if first.line == line_of(tokens) {
                Err(read_cut(alloc, text, first, tokens))
            } else {
                read_line(alloc, text, tokens)
            }
        }
    }
}

// How many of these tokens stand on a line, at the front.
fn line_len(line: u32, rest: &[Token]) -> usize
    ensures length { result ≡ prefix_len (λ t. nat_eq t.line line) rest.now }
    ensures within { result ≤ length rest.now }
{
    let mut count = 0;
    let mut rest = rest;
    while let [next, after @ ..] = rest {
        if next.line != line {
            return count;
        }
        count += 1;
        rest = after;
    }
    count
}

// The first line, and the tokens after it.
fn front_line(rest: &[Token]) -> (&[Token], &[Token])
    requires { 0 < length rest.now }
    ensures front { lines rest.now ≡ result.0.now ∷ lines result.1.now }
    ensures shorter { length result.1.now < length rest.now }
    ensures tokens { (text : List ℕ) → All (ReadsAsToken text) rest.now
        → All (ReadsAsToken text) result.0.now × All (ReadsAsToken text) result.1.now }
{
    rest.split_at(line_len(rest[0].line, rest))
}

// The calls of the tokens before the text's first fault.
fn read_lines(
    alloc: Global,
    text: &[u8],
    fault: Option<FirstFault>,
    tokens: &[Token],
) -> Result<Vec<Call>, InputFault>
    requires { All (ReadsAsToken text.now) tokens.now }
    ensures { Answers (calls_of text.now fault (lines tokens.now)) result }
{
    let mut found = Vec::new(alloc);
    let mut rest = tokens;
    while !rest.is_empty() {
        let (line, after) = front_line(rest);
        found.push(read_next(alloc, text, fault, line)?)?;
        rest = after;
    }
    match fault {
        None => Ok(found),
        Some(first) => Err(InputFault::Text(first.fault)),
    }
}

fn fault_of_text(fault: TextFault) -> InputFault
    ensures { result ≡ fault_of_text fault }
{
    match fault {
        TextFault::OutOfMemory => InputFault::OutOfMemory,
        other => InputFault::Text(other),
    }
}

fn read_tokens(
    alloc: Global,
    text: &[u8],
    fault: Option<FirstFault>,
    tokens: &[Token],
) -> Result<Vec<Call>, InputFault>
    requires { IsCut style.Input text.now tokens.now fault }
    ensures { IsInput text.now result }
{
    read_lines(alloc, text, fault, tokens)
}

/// Reads an input, which is all of the text: each line with a token has one form. The page FORMATS of the
/// documents has the forms, and says which token a refusal is told of. It takes time and memory as the
/// text is long.
pub fn read_input(alloc: Global, text: &[u8]) -> Result<Vec<Call>, InputFault>
    ensures { IsInput text.now result }
{
    match cut(alloc, text, Style::Input) {
        Ok(whole) => read_tokens(alloc, text, whole.fault, &whole.tokens),
        Err(fault) => Err(fault_of_text(fault)),
    }
}
