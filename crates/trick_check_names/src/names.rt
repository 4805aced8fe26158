ghost use Rattle.std.specs.Prelude.{◌≡◌, ◌++◌, ◌∷◌, ◌<◌, [], OnOk, OnErr, IfOk, Some, is_some, length, slice_get, take};
ghost use Rattle.trick_check_names.specs.Names.{meaning_of, with_name};

use indexmap::IndexMap;
use std::alloc::{AllocError, Global};
use std::marker::Model;
use trick_base::Word;

/// Names with what they stand for, in the order in which they became known, no name twice.
#[derive(Drop)]
pub struct Names<T> {
    table: IndexMap<Vec<u8>, T>,
}

impl<T> Model for Names<T> {
    ghost use Rattle.std.specs.Prelude.{map, List, ℕ};

    ghost Value = { List (List ℕ × T) };

    ghost view = { λ names. map (λ entry. (entry.0.items, entry.1)) names.table.entries };
}

impl<T: Copy + Drop> Names<T> {
    /// No name is known. Takes no memory.
    pub fn new(alloc: Global) -> Names<T>
        ensures { result ≡ [] }
    {
        Names {
            table: IndexMap::new(alloc),
        }
    }

    /// What a name stands for. Takes no memory.
    pub fn meaning(&self, name: &Word) -> Option<T>
        ensures { result ≡ meaning_of name.now self.now }
    {
        self.table.get(name.as_slice()).copied()
    }

    /// How many names are known.
    pub fn len(&self) -> usize
        ensures { result ≡ length self.now }
    {
        self.table.len()
    }

    /// The name at a place, from 0 in the order in which names became known, with what it stands
    /// for. Takes no memory.
    pub fn entry(&self, place: usize) -> (&[u8], T)
        requires here { place < length self.now }
        ensures { slice_get self.now place ≡ Some (result.0.now, result.1) }
    {
        let name = self.table.keys().as_slice()[place].as_slice();
        let meaning = self.table.values().as_slice()[place];
        (name, meaning)
    }

    /// Makes a name known that was not, and tells whether it was known before, which changes
    /// nothing.
    pub fn add(&mut self, name: &Word, meaning: T) -> Result<bool, AllocError>
        ensures known { OnOk result (self.new ≡ with_name name.now meaning self.old) }
        ensures was { IfOk result (λ was. was ≡ is_some (meaning_of name.now self.old)) }
        ensures err { OnErr result (self.new ≡ self.old) }
    {
        if self.table.contains_key(name.as_slice()) {
            return Ok(true);
        }
        let key = name.try_clone()?.into_vec();
        self.table.insert(key, meaning)?;
        Ok(false)
    }

    /// Forgets all names but the oldest so many.
    pub fn forget(&mut self, mark: usize)
        ensures { self.new ≡ take mark self.old }
    {
        self.table.truncate(mark);
    }
}
