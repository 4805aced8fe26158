//! Texts with names.

use crate::escapes::{add_bytes_of, bytes_of};
use crate::line::Given;
use std::alloc::{AllocError, Global};

// A text and its name.
#[derive(Drop)]
struct Text {
    name: String,
    bytes: Vec<u8>,
}

/// The texts, of which the last one can grow. Of two with one name the later one counts.
#[derive(Drop)]
pub struct Texts {
    texts: Vec<Text>,
}

impl Texts {
    /// No texts.
    pub fn new(alloc: Global) -> Self {
        Texts {
            texts: Vec::new(alloc),
        }
    }

    /// Begins a text.
    pub fn begin(&mut self, alloc: Global, name: &str) -> Result<(), AllocError> {
        let name = String::from_str(alloc, name)?;
        let bytes = Vec::new(alloc);
        self.texts.push(Text { name, bytes })?;
        Ok(())
    }

    /// The text of a name; no byte where there is none.
    pub fn named(&self, name: &str) -> &[u8] {
        let found = self
            .texts
            .iter()
            .rev()
            .find(|text| text.name.as_str() == name);
        match found {
            Some(text) => &text.bytes,
            None => &[],
        }
    }

    /// The bytes that are given.
    pub fn given(&self, alloc: Global, given: Given<'_>) -> Result<Vec<u8>, AllocError> {
        match given {
            Given::Nothing => Ok(Vec::new(alloc)),
            Given::Bytes(text) => bytes_of(alloc, text),
            Given::Named(name) => self.named(name).to_vec(alloc),
            Given::Line(text) => line_of(alloc, text),
        }
    }

    /// Adds bytes to the last text, so many times.
    pub fn add(&mut self, times: u64, bytes: &[u8]) -> Result<(), AllocError> {
        let Some(text) = self.texts.last_mut() else {
            return Ok(());
        };
        for _time in 0..times {
            text.bytes.extend_from_slice(bytes)?;
        }
        Ok(())
    }
}

// The bytes that a text says, and a line feed.
fn line_of(alloc: Global, text: &str) -> Result<Vec<u8>, AllocError> {
    let mut bytes = Vec::new(alloc);
    add_bytes_of(&mut bytes, text)?;
    bytes.push(b'\n')?;
    Ok(bytes)
}
