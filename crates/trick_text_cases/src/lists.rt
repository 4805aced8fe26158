//! What lists and words answer.

use crate::call::{Call, number_of};
use std::alloc::{AllocError, Global};
use trick_base::{Items, Word};
use trick_cases_report::Report;

// Adds the numbers of a list.
fn numbers(items: &Items<u64>, report: &mut Report) {
    if items.is_empty() {
        report.word("empty\n");
        return;
    }
    report.number("", items.len() as u64, " items:");
    for item in items.as_slice() {
        report.number(" ", *item, "");
    }
    report.word("\n");
}

// Adds what was taken from a list.
fn popped(number: Option<u64>, report: &mut Report) {
    report.code(&number);
    report.word(" of ");
}

// Sets the number at a place that is there.
fn set(items: &mut Items<u64>, place: usize, number: u64) {
    if place < items.len() {
        items.set(place, number);
    }
}

// Does what a word says: `3` adds a number, `pop` takes the last one, `1=9` sets that of a place, and `clear` empties
// the list.
fn change(items: &mut Items<u64>, word: &str, report: &mut Report) -> Result<(), AllocError> {
    if let Some((place, number)) = word.split_once('=') {
        set(items, number_of(place) as usize, number_of(number));
        return Ok(());
    }
    match word {
        "pop" => popped(items.pop(), report),
        "clear" => items.clear(),
        _ => items.push(number_of(word))?,
    }
    Ok(())
}

// Copies a list, does what a word says of it, and adds what it then has.
fn step(
    items: &mut Items<u64>,
    copy: &mut Items<u64>,
    word: &str,
    report: &mut Report,
) -> Result<(), AllocError> {
    *copy = items.clone()?;
    change(items, word, report)?;
    numbers(items, report);
    Ok(())
}

/// What words make of a list, after each of them, and whether a copy made before the last word is equal to what is
/// left.
pub(crate) fn items_of(
    alloc: Global,
    call: &Call<'_>,
    report: &mut Report,
) -> Result<(), AllocError> {
    let mut items = Items::new(alloc);
    let mut copy = Items::new(alloc);
    for word in call.words.split_terminator(' ') {
        step(&mut items, &mut copy, word, report)?;
    }
    report.word("equal to the copy: ");
    report.value(copy == Items::from_vec(items.into_vec()));
    Ok(())
}

/// Whether a word is this text, and so is a copy of it.
pub(crate) fn word_of(
    alloc: Global,
    call: &Call<'_>,
    report: &mut Report,
) -> Result<(), AllocError> {
    let word = Word::from_bytes(alloc, call.word(0).as_bytes())?;
    let copy = word.try_clone()?;
    report.value(word.is(call.text));
    report.word(" ");
    report.value(copy.is(call.text));
    report.word(", empty ");
    report.value(word.is_empty());
    Ok(())
}
