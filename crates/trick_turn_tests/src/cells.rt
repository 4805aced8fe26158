//! The memories that a board may have.
ghost use Rattle.std.specs.Prelude.{◌≡◌};

/// A memory, which contracts see as the list of its numbers.
pub trait Cells {
    ghost use Rattle.std.specs.Prelude.{◌≡◌, ℕ, List, slice_set};

    ghost numbers: { Self → List ℕ };

    /// Stores a number into a cell. Past the end nothing changes.
    fn store(&mut self, cell: usize, number: u64)
        ensures { numbers self.new ≡ slice_set (numbers self.old) cell number };
}

/// A row of numbers.
#[derive(Drop)]
pub struct Row {
    pub items: Vec<u64>,
}

impl Cells for Row {
    ghost numbers = { λ r. r.items.items };

    fn store(&mut self, cell: usize, number: u64) {
        if cell < self.items.len() {
            self.items[cell] = number;
        }
    }
}
