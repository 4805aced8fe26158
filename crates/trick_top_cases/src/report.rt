//! What is printed of a command.

use crate::outcome::{Outcome, is_among};
use crate::text::Text;
use md5::{Digest, Md5};
use trick_base::Word;
use trick_cases_report::Report;

/// A file of more lines than these is not printed whole.
const MOST_LINES: usize = 60;

/// How many of its first lines are printed then.
const FIRST_LINES: usize = 20;

/// And how many of its last ones.
const LAST_LINES: usize = 10;

/// The marks before a line: of one with a line feed, and of one without.
#[derive(Clone, Copy)]
struct Marks {
    whole: &'static str,
    open: &'static str,
}

/// Before a line that was printed.
const PRINTED: Marks = Marks {
    whole: ">",
    open: ">:",
};

/// Before a line of a file.
const OF_FILE: Marks = Marks {
    whole: "|",
    open: ":",
};

/// How many lines there are. The last one may have no line feed.
fn line_count(bytes: &[u8]) -> usize {
    bytes.split_inclusive(|byte| *byte == b'\n').count()
}

/// Whether a file of so many lines is printed with the line of this number.
fn is_shown(number: usize, count: usize) -> bool {
    count <= MOST_LINES || number < FIRST_LINES || count.saturating_sub(number) <= LAST_LINES
}

/// Adds what a command came to, of which these files are shown by their lines, or all.
pub(crate) fn tell(report: &mut Report, outcome: &Outcome, shown: Option<&Vec<Word>>) {
    report.number("status ", u64::from(outcome.status), "\n");
    tell_faults(report, "faults ", outcome.shelf_faults);
    tell_faults(report, "sink faults ", outcome.sink_faults);
    tell_lines(report, PRINTED, &outcome.printed);
    for file in &outcome.written {
        tell_file(report, file, is_among(shown, &file.name));
    }
    tell_same(report, &outcome.same);
}

/// Adds what a command came to with so many bytes of a file.
pub(crate) fn tell_front(report: &mut Report, count: usize, outcome: &Outcome) {
    report.value(count);
    report.number(" bytes: status ", u64::from(outcome.status), " > ");
    let printed = outcome.printed.as_slice();
    report.bytes(printed.strip_suffix(b"\n").unwrap_or(printed));
    report.word("\n");
    for file in &outcome.written {
        tell_file(report, file, true);
    }
}

/// Adds the names of files that were written as they are, where there are some.
fn tell_same(report: &mut Report, names: &[Vec<u8>]) {
    if names.is_empty() {
        return;
    }
    report.word("same");
    for name in names {
        report.word(" ");
        report.bytes(name);
    }
    report.word("\n");
}

/// Adds how many calls failed, where some did.
fn tell_faults(report: &mut Report, what: &str, count: u64) {
    if count > 0 {
        report.number(what, count, "\n");
    }
}

/// Adds a file with its lines, or in one line.
fn tell_file(report: &mut Report, file: &Text, is_shown: bool) {
    report.word("file ");
    report.bytes(&file.name);
    if is_shown {
        report.word("\n");
        tell_lines(report, OF_FILE, &file.bytes);
        return;
    }
    report.number(": ", line_count(&file.bytes) as u64, " lines, ");
    report.number("", file.bytes.len() as u64, " bytes\n");
}

/// Adds the lines of some bytes, each after its mark.
fn tell_lines(report: &mut Report, marks: Marks, bytes: &[u8]) {
    let count = line_count(bytes);
    for (number, line) in bytes.split_inclusive(|byte| *byte == b'\n').enumerate() {
        if is_shown(number, count) {
            tell_line(report, marks, line);
        } else if number == FIRST_LINES {
            tell_left_out(report, count, bytes);
        }
    }
}

/// Adds the line that stands for those that are left out of a file.
fn tell_left_out(report: &mut Report, lines: usize, bytes: &[u8]) {
    report.number(".. ", lines as u64, " lines, ");
    report.number("", bytes.len() as u64, " bytes, md5 ");
    for byte in Md5::digest(bytes) {
        report.digits(byte);
    }
    report.word("\n");
}

/// Adds a line after its mark.
fn tell_line(report: &mut Report, marks: Marks, line: &[u8]) {
    let (mark, line) = match line.strip_suffix(b"\n") {
        Some(line) => (marks.whole, line),
        None => (marks.open, line),
    };
    report.word(mark);
    if !line.is_empty() {
        report.word(" ");
    }
    report.bytes(line);
    report.word("\n");
}
