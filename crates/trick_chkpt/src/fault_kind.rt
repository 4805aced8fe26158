//! What is wrong with a line in the place of a fault.

ghost use Rattle.std.specs.List.{list_any};
ghost use Rattle.std.specs.Prelude.{◌≡◌, List, ℕ};
ghost use Rattle.std.specs.Str.{bytes_eq};
ghost use Rattle.trick_chkpt_lines.specs.Faults.{are_spelled, fault_kind as fault_kind_of, field_at, fields_kind as fields_kind_of, fields_of};
ghost use Rattle.trick_chkpt.specs.Fields.{field_seen, fields_seen, fields_where};
ghost use Rattle.trick_codes.specs.Gives.{bytes_of};
ghost use Rattle.trick_codes.specs.Lines.{first_line as first_line_of};

use trick_codes::{Kind, are_numbers, behind, first_line, free, kind_of};

/// The fields of a fault: its tic, its job and instance with a space after each, its instance alone,
/// its kind and its line.
#[derive(Clone, Copy)]
pub(crate) struct FaultFields<'a> {
    pub tic: &'a [u8],
    pub job: &'a [u8],
    pub instance: &'a [u8],
    pub kind: &'a [u8],
    pub line: &'a [u8],
}

// The bytes up to the first space, and what stands after it.
fn field(bytes: &[u8]) -> Option<(&[u8], &[u8])>
    ensures { field_seen result (field_at bytes.now) }
{
    match free(bytes.len(), b' ', bytes) {
        Ok((field, behind)) => Some((field, behind)),
        Err(_) => None,
    }
}

// The fields of a value, where it has five of them with spaces between.
fn fields(value: &[u8]) -> Option<FaultFields>
    ensures { fields_where result ≡ fields_of value.now }
{
    let (tic, behind_tic) = field(value)?;
    let (_, behind_name) = field(behind_tic)?;
    let (instance, behind_instance) = field(behind_name)?;
    let (kind, line) = field(behind_instance)?;
    if field(line).is_some() {
        return None;
    }
    let (job, _) = behind_tic.split_at(behind_tic.len().saturating_sub(behind_instance.len()));
    Some(FaultFields {
        tic,
        job,
        instance,
        kind,
        line,
    })
}

// Whether the kind is named and the numbers are written rightly.
fn are_right(fields: FaultFields) -> bool
    ensures { result ≡ are_spelled (fields_seen fields.entry) }
{
    (fields.kind == b"DivideByZero".as_slice() || fields.kind == b"IndexOutOfRange".as_slice())
        && are_numbers(1, fields.tic)
        && are_numbers(1, fields.line)
}

fn is_one_of(words: &[&[u8]], bytes: &[u8]) -> bool
    ensures { result ≡ list_any (bytes_eq bytes.now) (bytes_of words.now) }
{
    for word in words {
        if bytes == *word {
            return true;
        }
    }
    false
}

fn fields_kind(words: &[&[u8]], fields: FaultFields) -> Kind
    ensures { result ≡ fields_kind_of (bytes_of words.now) (fields_seen fields.entry) }
{
    if !are_numbers(1, fields.instance) {
        return Kind::BadLine;
    }
    if !is_one_of(words, fields.job) {
        return Kind::WrongPlan;
    }
    if are_right(fields) {
        return Kind::OutOfRange;
    }
    Kind::BadLine
}

/// What is wrong with the line with which this rest begins, where a fault of this name is due and
/// these are the jobs.
pub(crate) fn fault_kind(words: &[&[u8]], name: &[u8], rest: &[u8]) -> Kind
    ensures { result ≡ fault_kind_of (bytes_of words.now) name.now (first_line_of rest.now) }
{
    let Some(behind_name) = behind(first_line(rest), name) else {
        return kind_of(name, 0, rest);
    };
    let Some(bytes) = behind(behind_name, b" = ") else {
        return kind_of(name, 0, rest);
    };
    if bytes.len() < 2 || &bytes[bytes.len() - 2..] != b";\n".as_slice() {
        return kind_of(name, 0, rest);
    }
    match fields(&bytes[..bytes.len() - 2]) {
        None => Kind::BadLine,
        Some(fields) => fields_kind(words, fields),
    }
}
