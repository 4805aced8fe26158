ghost use Rattle.trick_outside.specs.Puts.{Puts};

use crate::{Sink, Taken1};

/// How a text was put to a sink.
#[derive(Clone, Copy, Debug, PartialEq, Eq)]
pub enum Printed {
    /// The sink took all of it.
    Done,
    /// The sink failed, and its count of faults rose. It took a prefix.
    Failed,
    /// There was no memory. The sink took a prefix.
    OutOfMemory,
}

/// Puts these bytes to a sink, piece after piece, since a sink may take a part of a piece.
pub fn put<O: Sink>(out: &mut O, bytes: &[u8]) -> Printed
    ensures { Puts O.Sink out.old out.new result bytes.now }
{
    let mut at = 0;
    while at < bytes.len() {
        match out.write(&bytes[at..]) {
            Taken1::Took(count) => at += count,
            Taken1::Failed => return Printed::Failed,
            Taken1::OutOfMemory => return Printed::OutOfMemory,
        }
    }
    Printed::Done
}
