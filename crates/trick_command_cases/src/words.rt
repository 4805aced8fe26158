//! The words of a call.

/// A name, the numbers behind it, and a word. What is not there is 0, or has no byte.
#[derive(Clone, Copy)]
pub(crate) struct Words<'w> {
    pub(crate) name: &'w str,
    /// How many numbers are there, at most two.
    pub(crate) numbers: u8,
    pub(crate) first: u64,
    pub(crate) second: u64,
    pub(crate) word: &'w str,
}

/// What stands before the first space, and what stands after it.
pub(crate) fn split(words: &str) -> (&str, &str) {
    match words.split_once(' ') {
        Some(halves) => halves,
        None => (words, ""),
    }
}

// The number with which words begin, and what stands after it.
fn split_number(words: &str) -> Option<(u64, &str)> {
    let (front, rest) = split(words);
    Some((front.parse().ok()?, rest))
}

/// A number of 32 bits; the largest one for what is larger.
pub(crate) fn small(number: u64) -> u32 {
    match u32::try_from(number) {
        Ok(number) => number,
        Err(_) => u32::MAX,
    }
}

// What stands after a name and a number.
fn words_after<'w>(name: &'w str, first: u64, rest: &'w str) -> Words<'w> {
    let (numbers, second, word) = match split_number(rest) {
        Some((second, word)) => (2, second, word),
        None => (1, 0, rest),
    };
    Words {
        name,
        numbers,
        first,
        second,
        word,
    }
}

impl Words<'_> {
    /// What a line says.
    pub(crate) fn read(words: &str) -> Words<'_> {
        let (name, rest) = split(words);
        match split_number(rest) {
            Some((first, rest)) => words_after(name, first, rest),
            None => Words {
                name,
                numbers: 0,
                first: 0,
                second: 0,
                word: rest,
            },
        }
    }
}
