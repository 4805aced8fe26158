//! The line of a refusal.

ghost use Rattle.std.specs.Prelude.{◌≡◌, ◌++◌, IfOk, OnOk, map};
ghost use Rattle.trick_top_refusals.specs.Line.{fields as fields_of, out_of_memory as out_of_memory_line};
ghost use Rattle.trick_top_refusals.specs.Line.{refused as refused_line, refused_above as refused_above_line};
ghost use Rattle.trick_top_refusals.specs.Line.{refused_at as refused_at_line};
ghost use Rattle.trick_top_refusals.specs.Seen.{field_text};

use crate::field::{Field, push_field};
use std::alloc::{AllocError, Global};

// Appends fields, each after a space.
fn push_fields(line: &mut Vec<u8>, fields: &[Field]) -> Result<(), AllocError>
    ensures { OnOk result (line.new.items ≡ line.old.items ++ fields_of (map field_text fields.now)) }
{
    for field in fields {
        push_field(line, *field)?;
    }
    Ok(())
}

/// The line of a code and of what follows it.
pub(crate) fn refused(alloc: Global, code: &[u8], fields: &[Field]) -> Result<Vec<u8>, AllocError>
    ensures { IfOk result (λ line. line.items ≡ refused_line code.now (map field_text fields.now)) }
{
    let mut line = Vec::from_slice(alloc, b"refused ")?;
    line.extend_from_slice(code)?;
    push_fields(&mut line, fields)?;
    line.extend_from_slice(b"\n")?;
    Ok(line)
}

/// The line of want of memory.
pub(crate) fn out_of_memory(alloc: Global) -> Result<Vec<u8>, AllocError>
    ensures { IfOk result (λ line. line.items ≡ out_of_memory_line) }
{
    refused(alloc, b"OutOfMemory", &[])
}

/// The line of a text that is refused at a line or a place, or for a count or a limit alone.
pub(crate) fn refused_at(
    alloc: Global,
    code: &[u8],
    source: &[u8],
    number: u64,
) -> Result<Vec<u8>, AllocError>
    ensures { IfOk result (λ line. line.items ≡ refused_at_line code.now source.now number) }
{
    refused(alloc, code, &[Field::Name(source), Field::Number(number)])
}

/// The line of a text that is refused at a line, for more than a limit.
pub(crate) fn refused_above(
    alloc: Global,
    code: &[u8],
    source: &[u8],
    line: u64,
    limit: u64,
) -> Result<Vec<u8>, AllocError>
    ensures { IfOk result (λ text. text.items ≡ refused_above_line code.now source.now line limit) }
{
    let fields = [
        Field::Name(source),
        Field::Number(line),
        Field::Number(limit),
    ];
    refused(alloc, code, &fields)
}
