//! Printing of the usual lines. An error leaves a part of the line after the text.

ghost use Rattle.std.specs.Fmt.{signed_decimal};
ghost use Rattle.std.specs.Prelude.{◌≡◌, ◌++◌, OnOk, decimal};
ghost use Rattle.trick_codes.specs.Named.{indexed, line_text, others_text, row_text, title};

use itoa::Buffer;
use std::alloc::AllocError;

/// Appends a name and ` = `.
pub fn push_title(text: &mut Vec<u8>, name: &[u8]) -> Result<(), AllocError>
    ensures { OnOk result (text.new.items ≡ text.old.items ++ title name.now) }
{
    text.extend_from_slice(name)?;
    text.extend_from_slice(b" = ")
}

/// Appends the line of a name and a value.
pub fn push_line(text: &mut Vec<u8>, name: &[u8], value: &[u8]) -> Result<(), AllocError>
    ensures { OnOk result (text.new.items ≡ text.old.items ++ line_text name.now value.now) }
{
    push_title(text, name)?;
    text.extend_from_slice(value)?;
    text.extend_from_slice(b";\n")
}

/// Appends the line of a name and a number.
pub fn push_number(text: &mut Vec<u8>, name: &[u8], number: u64) -> Result<(), AllocError>
    ensures { OnOk result (text.new.items ≡ text.old.items ++ line_text name.now (decimal number)) }
{
    push_line(text, name, Buffer::new().format(number).as_bytes())
}

/// Appends the line of a name and a number that may be below 0.
pub fn push_integer(text: &mut Vec<u8>, name: &[u8], number: i64) -> Result<(), AllocError>
    ensures { OnOk result (text.new.items ≡ text.old.items ++ line_text name.now (signed_decimal number)) }
{
    push_line(text, name, Buffer::new().format(number).as_bytes())
}

/// Appends numbers with `,` between and `;` at the end.
pub fn push_row(text: &mut Vec<u8>, numbers: &[i64]) -> Result<(), AllocError>
    ensures { OnOk result (text.new.items ≡ text.old.items ++ row_text numbers.now) }
{
    match numbers {
        [] => text.extend_from_slice(b";"),
        [first, others @ ..] => {
            text.extend_from_slice(Buffer::new().format(*first).as_bytes())?;
            push_others(text, others)
        }
    }
}

fn push_others(text: &mut Vec<u8>, numbers: &[i64]) -> Result<(), AllocError>
    ensures { OnOk result (text.new.items ≡ text.old.items ++ others_text numbers.now) }
{
    for number in numbers {
        text.extend_from_slice(b",")?;
        text.extend_from_slice(Buffer::new().format(*number).as_bytes())?;
    }
    text.extend_from_slice(b";")
}

/// Writes a stem and an index in brackets in place of a name.
pub fn set_indexed(name: &mut Vec<u8>, stem: &[u8], index: usize) -> Result<(), AllocError>
    ensures { OnOk result (name.new.items ≡ indexed stem.now index) }
{
    name.clear();
    name.extend_from_slice(stem)?;
    name.extend_from_slice(b"[")?;
    name.extend_from_slice(Buffer::new().format(index).as_bytes())?;
    name.extend_from_slice(b"]")
}
