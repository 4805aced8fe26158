//! What the readers of conditions and methods answer, and what the names of a condition stand for.

use crate::call::{Call, number_of, refused};
use std::alloc::{AllocError, Global};
use trick_base::Word;
use trick_body::{BodyFault, condition, read_body};
use trick_cases_report::Report;
use trick_check_names::Names;
use trick_lang::{Cell, Expr, syntax};
use trick_plan_conditions::{is_plain, resolve};
use trick_text::{Style, TextFault, laws, tokens};

/// Whether a text is a condition.
pub(crate) fn condition_of(alloc: Global, call: &Call<'_>, report: &mut Report) {
    match condition(alloc, call.text).err() {
        None => report.word("read"),
        Some(fault) => refused(fault, report),
    }
}

// Makes a cell known by its name.
fn add_cell(
    alloc: Global,
    cells: &mut Names<Cell>,
    name: &str,
    cell: u64,
) -> Result<(), AllocError> {
    let name = Word::from_bytes(alloc, name.as_bytes())?;
    cells.add(&name, Cell((cell % 65_536) as u32))?;
    Ok(())
}

// The cells that words name, as `o.v=3`.
fn cells_of(alloc: Global, words: &str) -> Result<Names<Cell>, AllocError> {
    let mut cells = Names::new(alloc);
    for word in words.split_terminator(' ') {
        if let Some((name, cell)) = word.split_once('=') {
            add_cell(alloc, &mut cells, name, number_of(cell))?;
        }
    }
    Ok(cells)
}

// Adds a number of a condition.
fn named_number(number: i64, report: &mut Report) {
    report.word("number ");
    report.value(number);
}

// Adds what a condition stands for.
fn expression(expression: &Expr, report: &mut Report) {
    match expression {
        Expr::Cell(place) => report.number("cell ", u64::from(place.first), ""),
        Expr::Number(number) => named_number(*number, report),
        _ => report.word("an expression"),
    }
}

// Adds whether a condition is plain, and what it stands for among these cells.
fn meaning(alloc: Global, condition: &syntax::Expr, cells: &Names<Cell>, report: &mut Report) {
    report.word("plain ");
    report.value(is_plain(condition));
    report.word(", ");
    match resolve(alloc, condition, &Names::new(alloc), cells) {
        Ok(found) => expression(&found, report),
        Err(fault) => refused(fault, report),
    }
}

// Adds what a condition stands for among these cells, where a text is one.
fn resolved(alloc: Global, text: &[u8], cells: &Names<Cell>, report: &mut Report) {
    match condition(alloc, text) {
        Ok(condition) => meaning(alloc, &condition, cells, report),
        Err(fault) => refused(fault, report),
    }
}

/// What a condition stands for where its words name all cells.
pub(crate) fn resolved_of(
    alloc: Global,
    call: &Call<'_>,
    report: &mut Report,
) -> Result<(), AllocError> {
    let cells = cells_of(alloc, call.words)?;
    resolved(alloc, call.text, &cells, report);
    Ok(())
}

// Of a method that begins at a token of a text the place after its last one, or why it is none.
fn end_of(alloc: Global, text: &[u8], from: usize) -> Result<Result<usize, BodyFault>, TextFault> {
    laws::all_are_tokens();
    let found = tokens(alloc, text, Style::SDefine)?;
    let from = from.min(found.len());
    match read_body(alloc, text, &found, from) {
        Ok((_, to)) => Ok(Ok(to)),
        Err(fault) => Ok(Err(fault)),
    }
}

/// Where a method ends.
pub(crate) fn method_of(alloc: Global, call: &Call<'_>, report: &mut Report) {
    match end_of(alloc, call.text, call.number(0) as usize) {
        Ok(Ok(to)) => report.number("up to token ", to as u64, ""),
        Ok(Err(fault)) => refused(fault, report),
        Err(fault) => refused(fault, report),
    }
}
