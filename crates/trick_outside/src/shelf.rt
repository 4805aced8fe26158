ghost use Rattle.std.specs.Prelude.{◌≡◌, ◌∷◌, [], ◌++◌, List, ℕ, Option};
ghost use Rattle.trick_base.specs.Files.{Files, Create, Append};

use std::alloc::Global;
use trick_base::Word;

/// The answer to a `get` of a file.
#[derive(Debug, Drop)]
pub enum Got {
    /// The bytes of the file.
    Found(Vec<u8>),
    /// No file of that name is held.
    Missing,
    /// The shelf failed, and its count of faults rose.
    Failed,
    /// There is no memory for the bytes.
    OutOfMemory,
}

/// The answer to a call that writes to a file.
#[derive(Clone, Copy, Debug, PartialEq, Eq)]
pub enum Wrote {
    /// All of it was done.
    Done,
    /// The shelf failed, and its count of faults rose.
    Failed,
    /// There was no memory.
    OutOfMemory,
}

/// Files by name, as a folder has them.
///
/// A shelf may tell what it holds, or nothing, as one over a real folder: what its calls leave of the
/// files is said where it tells. Whether it tells or not, `called` says which calls were made of it,
/// and what it answered.
pub trait Shelf {
    ghost use Rattle.trick_outside.specs.Calls.{Call, Calls, get_call, write_call};

    /// The files that it holds, where it tells.
    ghost holds: { Self → Option Files };

    /// How often it has failed. The count never falls, and stands still at 2^64 - 1.
    ghost failures: { Self → ℕ };

    /// On the way from the first value to the second just these calls were made, with these answers.
    ghost called: { Self → List Call → Self → Type 0 };

    /// The file of that name. It changes nothing that is held. `Found` has the bytes that are held
    /// under the name, and `Missing` comes only where no file of that name is held. `Failed` comes
    /// only where the count of faults rose in this call, or stands at its end.
    fn get(&mut self, alloc: Global, name: &Word) -> Got
        ensures told { called self.old (get_call name.now result ∷ []) self.new }
        ensures went { Calls (holds self.old) (holds self.new) (failures self.old) (failures self.new)
            (get_call name.now result ∷ []) };

    /// Makes an empty file of that name, in place of one that is there. Where it is not `Done`, the
    /// name has what it had or an empty file. Every other name stays as it was.
    fn create(&mut self, name: &Word) -> Wrote
        ensures told { called self.old (write_call (Create name.now) result ∷ []) self.new }
        ensures went { Calls (holds self.old) (holds self.new) (failures self.old) (failures self.new)
            (write_call (Create name.now) result ∷ []) };

    /// Adds these bytes at the end of the file of that name, which it makes where there is none.
    /// Where it is not `Done`, a prefix of the bytes may have been added. Every other name stays as
    /// it was.
    fn append(&mut self, name: &Word, bytes: &[u8]) -> Wrote
        ensures told { called self.old (write_call (Append name.now bytes.now) result ∷ []) self.new }
        ensures went { Calls (holds self.old) (holds self.new) (failures self.old) (failures self.new)
            (write_call (Append name.now bytes.now) result ∷ []) };

    /// The count of faults.
    fn faults(&self) -> u64
        ensures { result ≡ failures self.now };

    /// From a value to itself no call is made.
    ghost called_none: { (shelf : Self) → called shelf [] shelf };

    /// Calls that are made one after another are made.
    ghost called_join: { (first second third : Self) (early late : List Call)
        → called first early second → called second late third → called first (early ++ late) third };
}
