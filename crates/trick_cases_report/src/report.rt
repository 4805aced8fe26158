//! What is printed for a line.

use std::alloc::{AllocError, Global};
use std::fmt::{Debug, Display};

// More bytes of one kind than these are shown as a byte and their count.
const SHOWN: usize = 20;

/// An answer that is put together piece by piece. A piece for which memory is lacking is noted, so that the next one
/// can be added without a look at it, and the end of the report says so.
#[derive(Drop)]
pub struct Report {
    text: String,
    lacks_memory: bool,
}

impl Report {
    /// Nothing.
    pub fn new(alloc: Global) -> Report {
        Report {
            text: String::new(alloc),
            lacks_memory: false,
        }
    }

    /// All that was put together, where memory was there for all of it.
    pub fn finish(self) -> Result<String, AllocError> {
        let Report { text, lacks_memory } = self;
        if lacks_memory {
            return Err(AllocError);
        }
        Ok(text)
    }

    /// Notes that memory was lacking.
    pub fn lack(&mut self) {
        self.lacks_memory = true;
    }

    /// Adds a word as it is.
    pub fn word(&mut self, word: &str) {
        if self.text.push_str(word).is_err() {
            self.lack();
        }
    }

    /// Adds a value as a person reads it.
    pub fn value<T: Display + Drop>(&mut self, value: T) {
        if write!(self.text, "{value}").is_err() {
            self.lack();
        }
    }

    /// Adds a value as it is written in code.
    pub fn code<T: Debug>(&mut self, value: &T) {
        if write!(self.text, "{value:?}").is_err() {
            self.lack();
        }
    }

    /// Adds a word, a number and another word.
    pub fn number(&mut self, before: &str, number: u64, after: &str) {
        self.word(before);
        self.value(number);
        self.word(after);
    }

    // Adds a character.
    fn character(&mut self, character: char) {
        if self.text.push(character).is_err() {
            self.lack();
        }
    }

    /// Adds a byte by its two hexadecimal digits.
    pub fn digits(&mut self, byte: u8) {
        if write!(self.text, "{byte:02x}").is_err() {
            self.lack();
        }
    }

    // Adds a byte as `\xHH`.
    fn escaped(&mut self, byte: u8) {
        self.word("\\x");
        self.digits(byte);
    }

    // Adds a byte as it is written.
    fn byte(&mut self, byte: u8) {
        match byte {
            b'\n' => self.word("\\n"),
            b'\t' => self.word("\\t"),
            b'\\' => self.word("\\\\"),
            b' '..=b'~' => self.character(char::from(byte)),
            _ => self.escaped(byte),
        }
    }

    /// Adds bytes as they are written.
    pub fn bytes(&mut self, bytes: &[u8]) {
        for byte in bytes {
            self.byte(*byte);
        }
    }

    // Adds so many equal bytes; a long run as a byte and its count.
    fn run(&mut self, byte: u8, count: usize) {
        if count > SHOWN {
            self.byte(byte);
            self.number("{", count as u64, "}");
            return;
        }
        for _time in 0..count {
            self.byte(byte);
        }
    }

    /// Adds bytes as they are written. More than 20 equal bytes are shown as one and their count, as `x{4096}`.
    pub fn runs(&mut self, bytes: &[u8]) {
        let mut rest = bytes;
        for _run in 0..bytes.len() {
            let Some(first) = rest.first() else {
                break;
            };
            let other = rest.iter().position(|byte| byte != first);
            let count = other.unwrap_or(rest.len()).min(rest.len());
            self.run(*first, count);
            let (_, behind) = rest.split_at(count);
            rest = behind;
        }
    }

    /// Adds a word, and bytes in quotes.
    pub fn named(&mut self, word: &str, bytes: &[u8]) {
        self.word(word);
        self.word(" \"");
        self.runs(bytes);
        self.word("\"");
    }

    /// Adds the lines of a text, each after a mark: `|`, and `:` where the last one has no line feed.
    pub fn lines(&mut self, bytes: &[u8]) {
        for line in bytes.split_inclusive(|byte| *byte == b'\n') {
            let (mark, front) = match line.split_last() {
                Some((b'\n', front)) => ("| ", front),
                _ => (": ", line),
            };
            self.word(mark);
            self.runs(front);
            self.word("\n");
        }
    }
}
