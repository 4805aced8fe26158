ghost use Rattle.std.specs.Prelude.{◌≡◌, [], ◌∷◌, None, OnOk};
ghost use Rattle.trick_check_names.specs.Mistakes.{fault_of_found, noted, nothing_found, twice};
ghost use Rattle.trick_check_names.specs.Names.{with_name};
ghost use Rattle.trick_check_names.specs.Mistakes.{Twice, Unknown, NotScalar};

use crate::{NameFault, Names};
use std::alloc::AllocError;
use trick_base::Word;

/// The first mistake of each kind that a walk has met.
#[derive(Drop)]
pub struct Found {
    pub twice: Option<Word>,
    pub unknown: Option<u32>,
    pub not_scalar: Option<u32>,
}

impl Found {
    /// Nothing was met.
    pub fn nothing() -> Found
        ensures { result ≡ nothing_found }
    {
        Found {
            twice: None,
            unknown: None,
            not_scalar: None,
        }
    }

    /// Notes that what is named in a line is not there.
    pub fn note_unknown(&mut self, line: u32)
        ensures { self.new ≡ noted (Unknown line ∷ []) self.old }
    {
        if self.unknown.is_none() {
            self.unknown = Some(line);
        }
    }

    /// Notes that what is named in a line is no scalar or cannot be assigned.
    pub fn note_not_scalar(&mut self, line: u32)
        ensures { self.new ≡ noted (NotScalar line ∷ []) self.old }
    {
        if self.not_scalar.is_none() {
            self.not_scalar = Some(line);
        }
    }

    /// Notes that a name is given twice.
    pub fn note_twice(&mut self, name: &Word) -> Result<(), AllocError>
        ensures { OnOk result (self.new ≡ noted (Twice name.now ∷ []) self.old) }
    {
        if self.twice.is_none() {
            self.twice = Some(name.try_clone()?);
        }
        Ok(())
    }

    /// What decides of all that was met.
    pub fn fault(self) -> Option<NameFault>
        ensures { result ≡ fault_of_found self }
    {
        if let Some(name) = self.twice {
            return Some(NameFault::Twice(name));
        }
        if let Some(line) = self.unknown {
            return Some(NameFault::Unknown(line));
        }
        match self.not_scalar {
            Some(line) => Some(NameFault::NotScalar(line)),
            None => None,
        }
    }
}

/// Makes a name known, and notes one that was known.
pub fn declare<T: Copy + Drop>(
    name: &Word,
    meaning: T,
    names: &mut Names<T>,
    found: &mut Found,
) -> Result<(), AllocError>
    ensures found { OnOk result (found.new ≡ noted (twice name.now names.old) found.old) }
    ensures names { OnOk result (names.new ≡ with_name name.now meaning names.old) }
{
    if names.add(name, meaning)? {
        found.note_twice(name)?;
    }
    Ok(())
}
