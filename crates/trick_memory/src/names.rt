ghost use Rattle.std.specs.Prelude.{◌≡◌, ◌++◌, ◌∷◌, [], None, OnOk, option_map};
ghost use Rattle.trick_model.specs.Names.{find_name};

use indexmap::IndexSet;
use std::alloc::{AllocError, Global};
use std::marker::Model;
use trick_base::Word;

/// CellNames in order, no name twice.
#[derive(Drop)]
pub(crate) struct CellNames {
    set: IndexSet<Vec<u8>>,
}

impl Model for CellNames {
    ghost use Rattle.std.specs.Prelude.{map, List, ℕ};

    ghost Value = { List (List ℕ) };

    ghost view = { λ names. map (λ name. name.items) names.set.keys };
}

impl CellNames {
    /// No names. Takes no memory.
    pub(crate) fn new(alloc: Global) -> Self
        ensures { result ≡ [] }
    {
        CellNames {
            set: IndexSet::new(alloc),
        }
    }

    /// The place of a name. Takes no memory.
    pub(crate) fn find(&self, name: &[u8]) -> Option<usize>
        ensures { result ≡ find_name name.now self.now }
    {
        self.set.get_index_of(name)
    }

    /// Adds a name that is not there at the end.
    pub(crate) fn push(&mut self, name: &Word) -> Result<(), AllocError>
        requires { find_name name.now self.old ≡ None }
        ensures { OnOk result (self.new ≡ self.old ++ name.now ∷ []) }
    {
        let key = name.try_clone()?.into_vec();
        self.set.insert(key)?;
        Ok(())
    }
}
