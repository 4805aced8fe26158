//! Laws of full names and of the bytes of a memory. A function that calls one of them may rest on what
//! it says; the call itself does nothing.

ghost use Rattle.trick_memory.specs.Laws.{BytesTellNumbers, CellsHaveNames, NamesFindCells, PlainNamesStand};
ghost use Rattle.trick_memory.specs.Worked.{AreMemoriesPacked, AreNumbersPacked};

/// To find a cell and to name it are inverse, in every plan.
pub fn find_and_name_are_inverse()
    ensures cells { NamesFindCells }
    ensures names { CellsHaveNames }
{}

/// A name of letters, digits, `_`, `.`, `[` and `]` stands in a listing as it is.
pub fn plain_names_stand()
    ensures { PlainNamesStand }
{}

/// Numbers of their types are told by their bytes.
pub fn bytes_tell_numbers()
    ensures { BytesTellNumbers }
{}

/// The bytes of worked numbers and memories.
pub fn worked_bytes()
    ensures numbers { AreNumbersPacked }
    ensures memories { AreMemoriesPacked }
{}
