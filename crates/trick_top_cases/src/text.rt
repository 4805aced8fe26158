//! Texts and files with their names, and with holes for pieces.

use std::alloc::{AllocError, Global};

/// A place in a text for one of the pieces of a line.
#[derive(Drop)]
struct Hole {
    /// The number of the piece, from 1.
    number: u64,
    /// The bytes up to the next hole.
    after: Vec<u8>,
}

/// A text or a file.
#[derive(Drop)]
pub(crate) struct Text {
    pub(crate) name: Vec<u8>,
    /// The bytes, up to the first hole where there is one.
    pub(crate) bytes: Vec<u8>,
    holes: Vec<Hole>,
}

impl Text {
    /// A text with no hole.
    pub(crate) fn new(alloc: Global, name: Vec<u8>, bytes: Vec<u8>) -> Text {
        Text {
            name,
            bytes,
            holes: Vec::new(alloc),
        }
    }

    /// A text of this name with these bytes.
    pub(crate) fn from_bytes(alloc: Global, name: &[u8], bytes: &[u8]) -> Result<Text, AllocError> {
        let name = Vec::from_slice(alloc, name)?;
        let bytes = Vec::from_slice(alloc, bytes)?;
        Ok(Text::new(alloc, name, bytes))
    }

    /// Its first bytes, at most so many, and a piece behind them, under its name.
    pub(crate) fn front(
        &self,
        alloc: Global,
        count: usize,
        piece: &[u8],
    ) -> Result<Text, AllocError> {
        let name = self.name.clone()?;
        let mut bytes = Vec::from_slice(alloc, self.bytes.get(..count).unwrap_or(&self.bytes))?;
        bytes.extend_from_slice(piece)?;
        Ok(Text::new(alloc, name, bytes))
    }

    /// Its bytes and holes, without its name.
    pub(crate) fn copied(&self, alloc: Global) -> Result<Text, AllocError> {
        let mut copy = Text::new(alloc, Vec::new(alloc), Vec::new(alloc));
        let done = copy.add_text(alloc, self);
        if let Err(error) = done {
            drop(copy);
            return Err(error);
        }
        Ok(copy)
    }

    /// The bytes up to the first hole.
    pub(crate) fn into_bytes(self) -> Vec<u8> {
        let Text { bytes, .. } = self;
        bytes
    }

    /// Adds bytes at the end.
    pub(crate) fn add(&mut self, bytes: &[u8]) -> Result<(), AllocError> {
        match self.holes.last_mut() {
            Some(hole) => hole.after.extend_from_slice(bytes),
            None => self.bytes.extend_from_slice(bytes),
        }
    }

    /// Adds a hole for the piece of this number.
    pub(crate) fn add_hole(&mut self, alloc: Global, number: u64) -> Result<(), AllocError> {
        let after = Vec::new(alloc);
        self.holes.push(Hole { number, after })?;
        Ok(())
    }

    /// Adds a text with its holes.
    pub(crate) fn add_text(&mut self, alloc: Global, text: &Text) -> Result<(), AllocError> {
        self.add(&text.bytes)?;
        for hole in &text.holes {
            self.add_hole(alloc, hole.number)?;
            self.add(&hole.after)?;
        }
        Ok(())
    }

    /// The bytes with these pieces in the holes, and nothing in those for which there is none.
    fn filled(&self, alloc: Global, pieces: &[Vec<u8>]) -> Result<Vec<u8>, AllocError> {
        let mut bytes = Vec::from_slice(alloc, &self.bytes)?;
        for hole in &self.holes {
            if let Some(piece) = piece_of(pieces, hole.number) {
                bytes.extend_from_slice(piece)?;
            }
            bytes.extend_from_slice(&hole.after)?;
        }
        Ok(bytes)
    }
}

/// The piece of this number, from 1.
fn piece_of(pieces: &[Vec<u8>], number: u64) -> Option<&[u8]> {
    let place = usize::try_from(number.checked_sub(1)?).ok()?;
    Some(pieces.get(place)?.as_slice())
}

/// The text of this name.
pub(crate) fn find<'a>(texts: &'a [Text], name: &[u8]) -> Option<&'a Text> {
    texts.iter().find(|text| text.name.as_slice() == name)
}

/// Puts a text at the end, in the place of one of the same name.
pub(crate) fn put(texts: &mut Vec<Text>, text: Text) -> Result<(), AllocError> {
    texts.retain(|other| other.name.as_slice() != text.name.as_slice());
    texts.push(text)?;
    Ok(())
}

/// All of the texts, with these pieces in their holes.
pub(crate) fn all_filled(
    alloc: Global,
    texts: &[Text],
    pieces: &[Vec<u8>],
) -> Result<Vec<Text>, AllocError> {
    let mut all = Vec::new(alloc);
    for text in texts {
        let name = text.name.clone()?;
        let bytes = text.filled(alloc, pieces)?;
        all.push(Text::new(alloc, name, bytes))?;
    }
    Ok(all)
}
