//! What a line says after its code.

ghost use Rattle.std.specs.Prelude.{◌≡◌, ◌++◌, OnOk, codes};
ghost use Rattle.trick_top_refusals.specs.Seen.{field_text};

use itoa::Buffer;
use std::alloc::AllocError;

/// A field of a line.
#[derive(Clone, Copy, Debug)]
pub(crate) enum Field<'a> {
    /// A name, or the name of the text that is refused.
    Name(&'a [u8]),
    /// A line or a count from 1, a place from 0, a limit, a thread, or a tic.
    Number(u64),
}

/// Appends a field and the space before it.
pub(crate) fn push_field(line: &mut Vec<u8>, field: Field) -> Result<(), AllocError>
    ensures { OnOk result (line.new.items ≡ line.old.items ++ codes " " ++ field_text field.entry) }
{
    line.extend_from_slice(b" ")?;
    match field {
        Field::Name(name) => line.extend_from_slice(name),
        Field::Number(number) => line.extend_from_slice(Buffer::new().format(number).as_bytes()),
    }
}
