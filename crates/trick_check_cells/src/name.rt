//! Full names, part by part.

ghost use Rattle.std.specs.Prelude.{◌≡◌, ◌++◌, IfOk};
ghost use Rattle.trick_check_cells.specs.Cells.{bracket, dotted};

use itoa::Buffer;
use std::alloc::AllocError;
use trick_base::Word;

/// `[k]` after a name.
pub fn with_index(prefix: &Word, k: u64) -> Result<Word, AllocError>
    ensures { IfOk result (λ name. name ≡ prefix.now ++ bracket k) }
{
    let mut buffer = Buffer::new();
    let mut name = prefix.try_clone()?.into_vec();
    name.push(b'[')?;
    name.extend_from_slice(buffer.format(k).as_bytes())?;
    name.push(b']')?;
    Ok(Word::from_vec(name))
}

/// `.name` after a name.
pub fn with_member(prefix: &Word, name: &[u8]) -> Result<Word, AllocError>
    ensures { IfOk result (λ whole. whole ≡ prefix.now ++ dotted name.now) }
{
    let mut whole = prefix.try_clone()?.into_vec();
    whole.push(b'.')?;
    whole.extend_from_slice(name)?;
    Ok(Word::from_vec(whole))
}
