//! An object of one of the classes in turn.

ghost use Rattle.std.specs.Prelude.{◌≡◌, ◌++◌, OnOk};
ghost use Rattle.trick_gen.specs.Texts.{object_text};

use crate::thread::push_number;
use std::alloc::AllocError;

/// How many classes there are.
pub(crate) const CLASSES: u32 = 4;

/// Appends an object.
pub(crate) fn push_object(text: &mut Vec<u8>, object: u32) -> Result<(), AllocError>
    ensures { OnOk result (text.new.items ≡ text.old.items ++ object_text object) }
{
    text.extend_from_slice(b"G")?;
    push_number(text, object % CLASSES)?;
    text.extend_from_slice(b" o")?;
    push_number(text, object)?;
    text.extend_from_slice(b";\n")
}
