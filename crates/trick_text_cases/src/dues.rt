//! What the arithmetic of due tics answers. A word `1/6/end` stands for what is due from tic 1 on, each 6 tics, up to
//! the greatest tic.

use crate::call::{Call, number_of};
use trick_cases_report::Report;
use trick_cycle::{Due, covers, first_shared, is_due, is_in_range, next_due};

// The last tic of a table.
const LAST: u64 = 40;

// The numbers of a word; 0 for each that it does not have.
fn due_of(word: &str) -> Due {
    let (start, rest) = word.split_once('/').unwrap_or((word, ""));
    let (cycle, stop) = rest.split_once('/').unwrap_or((rest, ""));
    Due {
        start: number_of(start),
        cycle: number_of(cycle),
        stop: number_of(stop),
    }
}

// Adds a tic, or a dash for none.
fn tic(tic: Option<u64>, report: &mut Report) {
    match tic {
        Some(tic) => report.value(tic),
        None => report.word("-"),
    }
}

/// Whether a word is in range.
pub(crate) fn range_of(call: &Call<'_>, report: &mut Report) {
    let due = due_of(call.word(0));
    report.code(&due);
    report.word(if is_in_range(due) {
        " is in range"
    } else {
        " is out of range"
    });
}

/// The next due tic, and whether the tic itself is due.
pub(crate) fn next_of(call: &Call<'_>, report: &mut Report) {
    let due = due_of(call.word(0));
    let from = call.number(1);
    if !is_in_range(due) {
        report.word("out of range");
        return;
    }
    tic(next_due(due, from), report);
    report.word(if is_due(due, from) {
        " due"
    } else {
        " not due"
    });
}

/// The next due tic from each tic of a table on.
pub(crate) fn nexts_of(call: &Call<'_>, report: &mut Report) {
    let due = due_of(call.word(0));
    if !is_in_range(due) {
        return;
    }
    let mut between = "";
    for from in 0..=LAST + 1 {
        report.word(between);
        tic(next_due(due, from), report);
        between = " ";
    }
}

/// The first tic that two share, asked both ways.
pub(crate) fn shared_of(call: &Call<'_>, report: &mut Report) {
    let a = due_of(call.word(0));
    let b = due_of(call.word(1));
    if is_in_range(a) && is_in_range(b) {
        tic(first_shared(a, b), report);
        report.word(" ");
        tic(first_shared(b, a), report);
    }
}

/// The first tic that two share, for each stop of the first in a table; the second goes to its own stop, or where that
/// is 0 to what is left of the table.
pub(crate) fn meets_of(call: &Call<'_>, report: &mut Report) {
    let a = due_of(call.word(0));
    let b = due_of(call.word(1));
    let mut between = "";
    for stop in 0..=LAST {
        let rest = if b.stop == 0 { LAST - stop } else { b.stop };
        let a = Due { stop, ..a };
        let b = Due { stop: rest, ..b };
        if is_in_range(a) && is_in_range(b) {
            report.word(between);
            tic(first_shared(a, b), report);
            between = " ";
        }
    }
}

/// Whether one is due wherever two others are, asked both ways.
pub(crate) fn covers_of(call: &Call<'_>, report: &mut Report) {
    let c = due_of(call.word(0));
    let a = due_of(call.word(1));
    let b = due_of(call.word(2));
    if !is_in_range(a) || !is_in_range(b) || !is_in_range(c) {
        report.word("out of range");
        return;
    }
    report.value(covers(c, a, b));
    report.word(" ");
    report.value(covers(c, b, a));
}

// Adds a letter, `y` where one is due wherever two others are.
fn letter(c: Due, a: Due, b: Due, report: &mut Report) {
    if is_in_range(a) && is_in_range(b) && is_in_range(c) {
        report.word(if covers(c, a, b) { "y" } else { "n" });
    }
}

/// A letter for each stop of the covering one in a table, `y` where it is due wherever both others are. Their stops
/// fall from the end of the table as the other stop rises.
pub(crate) fn covered_of(call: &Call<'_>, report: &mut Report) {
    let c = due_of(call.word(0));
    let a = due_of(call.word(1));
    let b = due_of(call.word(2));
    for stop in 0..=LAST {
        let c = Due { stop, ..c };
        let a = Due {
            stop: LAST - stop / 2,
            ..a
        };
        let b = Due {
            stop: LAST - stop / 3,
            ..b
        };
        letter(c, a, b, report);
    }
}
