//! The thread of a job.

ghost use Rattle.std.specs.Prelude.{◌≡◌, ◌++◌, OnOk, decimal};
ghost use Rattle.trick_gen.specs.Texts.{thread_text};

use itoa::Buffer;
use std::alloc::AllocError;

/// Appends a number.
pub(crate) fn push_number(text: &mut Vec<u8>, number: u32) -> Result<(), AllocError>
    ensures { OnOk result (text.new.items ≡ text.old.items ++ decimal number) }
{
    text.extend_from_slice(Buffer::new().format(number).as_bytes())
}

/// Appends the thread of the jobs of a class; thread 0 is not named.
pub(crate) fn push_thread(text: &mut Vec<u8>, class: u32) -> Result<(), AllocError>
    ensures { OnOk result (text.new.items ≡ text.old.items ++ thread_text class) }
{
    if class == 0 {
        return Ok(());
    }
    text.extend_from_slice(b"C")?;
    push_number(text, class)?;
    text.extend_from_slice(b" ")
}
