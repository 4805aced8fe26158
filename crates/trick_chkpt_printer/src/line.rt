//! Lines of a checkpoint, piece by piece. An error leaves a part of the line after the text.

ghost use Rattle.std.specs.Prelude.{◌≡◌, ◌++◌, ℤ, List, OnOk, decimal, codes};
ghost use Rattle.std.specs.Fmt.{signed_decimal};
ghost use Rattle.trick_model.specs.Checkpoint.{at, flag_text, line};

use itoa::Buffer;
use std::alloc::AllocError;

/// Appends the line of a name and a value. Where the name stands there already, none is given.
pub(crate) fn push_line(text: &mut Vec<u8>, name: &[u8], value: &[u8]) -> Result<(), AllocError>
    ensures { OnOk result (text.new.items ≡ text.old.items ++ line name.now value.now) }
{
    text.extend_from_slice(name)?;
    text.extend_from_slice(b" = ")?;
    text.extend_from_slice(value)?;
    text.extend_from_slice(b";\n")
}

/// Appends a number.
pub(crate) fn push_number(text: &mut Vec<u8>, number: u64) -> Result<(), AllocError>
    ensures { OnOk result (text.new.items ≡ text.old.items ++ decimal number) }
{
    text.extend_from_slice(Buffer::new().format(number).as_bytes())
}

/// Appends the line of a name and a number.
pub(crate) fn push_number_line(
    text: &mut Vec<u8>,
    name: &[u8],
    number: u64,
) -> Result<(), AllocError>
    ensures { OnOk result (text.new.items ≡ text.old.items ++ line name.now (decimal number)) }
{
    push_line(text, name, Buffer::new().format(number).as_bytes())
}

/// Appends the line of a cell: what stands in front of its full name, the name, and its number.
pub(crate) fn push_cell(
    text: &mut Vec<u8>,
    front: &[u8],
    name: &[u8],
    number: i64,
) -> Result<(), AllocError>
    ensures { OnOk result (text.new.items ≡ text.old.items ++ line (front.now ++ name.now) (signed_decimal number)) }
{
    text.extend_from_slice(front)?;
    push_line(text, name, Buffer::new().format(number).as_bytes())
}

/// Appends a name with an index, as `job[3]`.
pub(crate) fn push_indexed(text: &mut Vec<u8>, name: &[u8], index: usize) -> Result<(), AllocError>
    ensures { OnOk result (text.new.items ≡ text.old.items ++ at name.now index) }
{
    text.extend_from_slice(name)?;
    text.extend_from_slice(b"[")?;
    text.extend_from_slice(Buffer::new().format(index).as_bytes())?;
    text.extend_from_slice(b"]")
}

fn digit_of(flag: bool) -> &'static [u8]
    ensures { result.now ≡ flag_text flag }
{
    if flag { b"1" } else { b"0" }
}

/// Appends the line of a flag, 1 or 0, by its index.
pub(crate) fn push_flag(
    text: &mut Vec<u8>,
    name: &[u8],
    index: usize,
    flag: bool,
) -> Result<(), AllocError>
    ensures { OnOk result (text.new.items ≡ text.old.items ++ line (at name.now index) (flag_text flag)) }
{
    push_indexed(text, name, index)?;
    push_line(text, b"", digit_of(flag))
}
