//! One line of a log, field by field, by a writer that is kept from line to line. No field is quoted: names
//! and numbers have neither a comma nor a quote in them.

ghost use Rattle.std.specs.Prelude.{◌≡◌, ◌≢◌, ◌++◌, [], IfOk, OnOk, Some, codes};
ghost use Rattle.trick_record.specs.Held.{Holds, Rests};

use csv::{QuoteStyle, Writer, WriterBuilder};
use std::alloc::AllocError;

/// A writer of lines after these bytes.
pub(crate) fn line_writer(bytes: Vec<u8>) -> Writer<Vec<u8>>
    ensures { Rests (λ v. Some v.items) result bytes.items }
{
    WriterBuilder::new()
        .quote_style(QuoteStyle::Never)
        .flexible(true)
        .from_writer(bytes)
}

/// Begins a line by its first field, which is not empty.
pub(crate) fn first(writer: &mut Writer<Vec<u8>>, field: &[u8]) -> Result<(), AllocError>
    requires { field.now ≢ [] }
    ensures { OnOk result ((bytes : _) → Rests (λ v. Some v.items) writer.old bytes
        → Holds (λ v. Some v.items) writer.new (bytes ++ field.now)) }
{
    match writer.write_field(field) {
        Ok(()) => Ok(()),
        Err(_) => Err(AllocError),
    }
}

/// Adds one more field.
pub(crate) fn put(writer: &mut Writer<Vec<u8>>, field: &[u8]) -> Result<(), AllocError>
    ensures { OnOk result ((bytes : _) → Holds (λ v. Some v.items) writer.old bytes
        → Holds (λ v. Some v.items) writer.new (bytes ++ (codes "," ++ field.now))) }
{
    match writer.write_field(field) {
        Ok(()) => Ok(()),
        Err(_) => Err(AllocError),
    }
}

/// Ends the line, of which no byte waits any more.
pub(crate) fn last(writer: &mut Writer<Vec<u8>>) -> Result<(), AllocError>
    ensures { OnOk result ((bytes : _) → Holds (λ v. Some v.items) writer.old bytes
        → Rests (λ v. Some v.items) writer.new (bytes ++ codes "\n")) }
{
    if writer.end_record().is_err() {
        return Err(AllocError);
    }
    match writer.flush() {
        Ok(()) => Ok(()),
        Err(_) => Err(AllocError),
    }
}

/// The lines that were written, in the buffer that the writer was made of.
pub(crate) fn lines_of(writer: Writer<Vec<u8>>) -> Result<Vec<u8>, AllocError>
    ensures { IfOk result (λ text. (bytes : _) → Rests (λ v. Some v.items) writer bytes
        → text.items ≡ bytes) }
{
    match writer.into_inner() {
        Ok(text) => Ok(text),
        Err(_) => Err(AllocError),
    }
}
