ghost use Rattle.std.specs.Prelude.{◌≡◌, ◌↔◌, ◌∷◌, [], IsErrOf, IsOk};
ghost use Rattle.trick_outside.specs.Calls.{get_call};
ghost use Rattle.trick_outside.specs.Does.{Does, Went, added, created};

use crate::{Got, Shelf, Stop, Wrote};
use std::alloc::Global;
use trick_base::Word;

impl Wrote {
    /// The answer as a result, for `?`.
    pub fn into_result(self) -> Result<(), Stop>
        ensures done { IsOk result ↔ (self ≡ Wrote.Done) }
        ensures failed { IsErrOf result Stop.Shelf ↔ (self ≡ Wrote.Failed) }
    {
        match self {
            Wrote::Done => Ok(()),
            Wrote::Failed => Err(Stop::Shelf),
            Wrote::OutOfMemory => Err(Stop::Memory),
        }
    }
}

/// The file of that name, as the shelf's own `get` answers.
pub fn get<F: Shelf>(shelf: &mut F, alloc: Global, name: &Word) -> Got
    ensures { Went F.Shelf shelf.old shelf.new (get_call name.now result ∷ []) }
{
    shelf.get(alloc, name)
}

/// Makes an empty file of that name, in place of one that is there.
pub fn create<F: Shelf>(shelf: &mut F, name: &Word) -> Result<(), Stop>
    ensures { Does F.Shelf shelf.old shelf.new result (created name.now ∷ []) }
{
    shelf.create(name).into_result()
}

/// Adds these bytes at the end of the file of that name, which it makes where there is none.
pub fn append<F: Shelf>(shelf: &mut F, name: &Word, bytes: &[u8]) -> Result<(), Stop>
    ensures { Does F.Shelf shelf.old shelf.new result (added name.now bytes.now ∷ []) }
{
    shelf.append(name, bytes).into_result()
}

/// Writes a file with these bytes, in place of one that is there.
pub fn write_file<F: Shelf>(shelf: &mut F, name: &Word, bytes: &[u8]) -> Result<(), Stop>
    ensures { Does F.Shelf shelf.old shelf.new result
        (created name.now ∷ added name.now bytes.now ∷ []) }
{
    create(shelf, name)?;
    append(shelf, name, bytes)?;
    Ok(())
}
