//! Bytes, words and numbers as they are written in the input.

use crate::line::number as parsed;
use crate::mistake::Mistake;
use crate::text::Text;
use std::alloc::{AllocError, Global};
use trick_base::Word;

/// What the last byte of the input is to be followed by.
#[derive(Clone, Copy)]
enum Awaits {
    Any,
    /// What stands after a backslash.
    Escaped,
    /// The first of two digits.
    Digit,
    /// The second one, after one of this value.
    SecondDigit(u8),
}

/// What is read so far.
#[derive(Drop)]
struct Reading {
    text: Text,
    awaits: Awaits,
}

/// The value of a hexadecimal digit.
fn digit(byte: u8) -> Result<u8, Mistake> {
    match byte {
        b'0'..=b'9' => Ok(byte - b'0'),
        b'a'..=b'f' => Ok(byte - b'a' + 10),
        b'A'..=b'F' => Ok(byte - b'A' + 10),
        _ => Err(Mistake::Escape),
    }
}

/// The byte that a letter after a backslash stands for.
fn escaped(byte: u8) -> Result<u8, Mistake> {
    match byte {
        b'\\' => Ok(b'\\'),
        b'n' => Ok(b'\n'),
        b't' => Ok(b'\t'),
        _ => Err(Mistake::Escape),
    }
}

impl Reading {
    fn new(alloc: Global) -> Reading {
        Reading {
            text: Text::new(alloc, Vec::new(alloc), Vec::new(alloc)),
            awaits: Awaits::Any,
        }
    }

    /// One more byte of what is written.
    fn put(&mut self, byte: u8) -> Result<Awaits, AllocError> {
        self.text.add(&[byte])?;
        Ok(Awaits::Any)
    }

    /// The number of a time.
    fn put_number(&mut self, alloc: Global, time: u64) -> Result<Awaits, AllocError> {
        let number = format!(in alloc; "{time}")?;
        self.text.add(number.as_bytes())?;
        Ok(Awaits::Any)
    }

    /// A hole for the piece of a digit.
    fn put_hole(&mut self, alloc: Global, number: u8) -> Result<Awaits, AllocError> {
        self.text.add_hole(alloc, u64::from(number))?;
        Ok(Awaits::Any)
    }

    /// Takes one more byte of the input.
    fn take(&mut self, alloc: Global, byte: u8, time: u64) -> Result<(), Mistake> {
        self.awaits = match (self.awaits, byte) {
            (Awaits::Any, b'\\') => Awaits::Escaped,
            (Awaits::Any, _) => self.put(byte)?,
            (Awaits::Escaped, b'x') => Awaits::Digit,
            (Awaits::Escaped, b'#') => self.put_number(alloc, time)?,
            (Awaits::Escaped, b'-') => self.put_number(alloc, time.saturating_sub(1))?,
            (Awaits::Escaped, b'e') => Awaits::Any,
            (Awaits::Escaped, b'1'..=b'9') => self.put_hole(alloc, digit(byte)?)?,
            (Awaits::Escaped, _) => self.put(escaped(byte)?)?,
            (Awaits::Digit, _) => Awaits::SecondDigit(digit(byte)?),
            (Awaits::SecondDigit(high), _) => self.put((high << 4) | digit(byte)?)?,
        };
        Ok(())
    }

    /// The text, where nothing is begun.
    fn finish(self) -> Result<Text, Mistake> {
        let Reading { text, awaits } = self;
        match awaits {
            Awaits::Any => Ok(text),
            _ => Err(Mistake::Escape),
        }
    }
}

/// The text, with no name, that a text of the input stands for, which is there for this time.
pub(crate) fn text_of(alloc: Global, text: &str, time: u64) -> Result<Text, Mistake> {
    let mut reading = Reading::new(alloc);
    for byte in text.bytes() {
        reading.take(alloc, byte, time)?;
    }
    reading.finish()
}

/// The pieces that a text stands for.
pub(crate) fn pieces_of(alloc: Global, text: &str) -> Result<Vec<Vec<u8>>, Mistake> {
    let mut pieces = Vec::new(alloc);
    for piece in text.split(" @ ") {
        let piece = bytes_of(alloc, piece)?;
        pieces.push(piece).map_err(AllocError::from)?;
    }
    Ok(pieces)
}

/// The bytes that a text of the input stands for.
pub(crate) fn bytes_of(alloc: Global, text: &str) -> Result<Vec<u8>, Mistake> {
    Ok(text_of(alloc, text, 0)?.into_bytes())
}

/// Whether each time of a text has its own bytes.
pub(crate) fn is_numbered(text: &str) -> bool {
    text.split_once("\\#").is_some() || text.split_once("\\-").is_some()
}

/// The word that a text stands for.
pub(crate) fn word_of(alloc: Global, text: &str) -> Result<Word, Mistake> {
    if text == "''" {
        return Ok(Word::new(alloc));
    }
    Ok(Word::from_vec(bytes_of(alloc, text)?))
}

/// The words that a text stands for.
pub(crate) fn words_of(alloc: Global, text: &str) -> Result<Vec<Word>, Mistake> {
    let mut words = Vec::new(alloc);
    for word in text.split(' ') {
        if !word.is_empty() {
            let word = word_of(alloc, word)?;
            words.push(word).map_err(AllocError::from)?;
        }
    }
    Ok(words)
}

/// The numbers that a text stands for.
pub(crate) fn numbers_of(alloc: Global, text: &str) -> Result<Vec<u64>, Mistake> {
    let mut numbers = Vec::new(alloc);
    for number in text.split(' ') {
        numbers.push(parsed(number)?).map_err(AllocError::from)?;
    }
    Ok(numbers)
}
