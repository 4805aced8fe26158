ghost use Rattle.std.specs.List.{list_any};
ghost use Rattle.std.specs.Prelude.{◌≡◌};
ghost use Rattle.std.specs.Str.{bytes_eq};
ghost use Rattle.trick_plan_variables.specs.Cells.{begins_with, first_name, is_taken};
ghost use Rattle.trick_lang.specs.declared.object.Object.{Object};
ghost use Rattle.trick_lang.specs.declared.variable.Variable.{Variable};

use trick_lang::{Object, Variable};

/// The bytes of a full name before its first `.` or `[`: the name of an object or of a declared
/// variable.
pub fn first_name(name: &[u8]) -> &[u8]
    ensures { result.now ≡ first_name name.now }
{
    let mut end = 0;
    for byte in name {
        if *byte == b'.' || *byte == b'[' {
            break;
        }
        end += 1;
    }
    &name[..end]
}

// Whether a cell's full name begins with the name of a variable.
fn begins_with(name: &[u8], cell: &Variable) -> bool
    ensures { result ≡ begins_with name.now cell.now }
{
    first_name(cell.name.as_slice()) == first_name(name)
}

// Whether a cell's full name begins with the name of a variable.
fn begins_a_cell(name: &[u8], cells: &[Variable]) -> bool
    ensures { result ≡ list_any (begins_with name.now) cells.now }
{
    cells.iter().any(|cell| begins_with(name, cell))
}

// Whether an object has this name.
fn is_of_object(name: &[u8], objects: &[Object]) -> bool
    ensures { result ≡ list_any (λ (object : Object). bytes_eq object.name name.now) objects.now }
{
    objects.iter().any(|object| object.name.as_slice() == name)
}

/// Whether an object has this name, or a cell's full name begins with it. Looks at each of them.
pub fn is_taken(name: &[u8], objects: &[Object], cells: &[Variable]) -> bool
    ensures { result ≡ is_taken name.now objects.now cells.now }
{
    is_of_object(name, objects) || begins_a_cell(name, cells)
}
