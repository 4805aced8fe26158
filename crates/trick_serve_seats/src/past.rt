//! A session whose threads were taken in.

use trick_wire::{ReaderDone, WriterDone};

/// What a client's reader and writer handed back. Where a thread was refused to the client, the one or both of them
/// that did not run have read or written nothing.
#[derive(Drop)]
pub struct Past<I, O> {
    pub reader: ReaderDone<I>,
    pub writer: WriterDone<O>,
}
