//! A call of the cases, and what many answers have.

use std::fmt::Display;
use trick_cases_report::Report;

/// A call of the cases.
#[derive(Clone, Copy)]
pub(crate) struct Call<'l> {
    /// What is called.
    pub(crate) name: &'l str,
    /// The words after it, with a blank between two; none where this is empty.
    pub(crate) words: &'l str,
    /// Its text, which is empty where it has none.
    pub(crate) text: &'l [u8],
    /// Whether it has a text.
    pub(crate) has_text: bool,
}

impl Call<'_> {
    /// The word of this place, and no byte where there is none.
    pub(crate) fn word(&self, place: usize) -> &str {
        match self.words.split(' ').nth(place) {
            Some(word) => word,
            None => "",
        }
    }

    /// The number at this place, and 0 where there is none.
    pub(crate) fn number(&self, place: usize) -> u64 {
        number_of(self.word(place))
    }
}

/// The number of a word, and 0 of one that is none. The greatest tic, 10^15, is `end`.
pub(crate) fn number_of(word: &str) -> u64 {
    if word == "end" {
        return 1_000_000_000_000_000;
    }
    word.parse::<u64>().unwrap_or(0)
}

/// Adds why something is refused.
pub(crate) fn refused<F: Display + Drop>(fault: F, report: &mut Report) {
    report.word("refused: ");
    report.value(fault);
}
