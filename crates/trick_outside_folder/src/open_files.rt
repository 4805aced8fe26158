//! Files that stay open from one append to the next.

use indexmap::IndexMap;
use std::alloc::Global;

/// How many files are kept open at the most: the journal and the logs of 64 groups, and about as many
/// that are written once, as checkpoints are.
const MOST_OPEN: usize = 128;

/// Files that are open, by their names, in the order in which they were opened.
#[derive(Drop)]
pub(crate) struct OpenFiles<F> {
    files: IndexMap<Vec<u8>, F>,
}

impl<F: Drop> OpenFiles<F> {
    pub(crate) fn new(alloc: Global) -> Self {
        OpenFiles {
            files: IndexMap::new(alloc),
        }
    }

    /// The file of this name, where it is open.
    pub(crate) fn find(&mut self, name: &[u8]) -> Option<&mut F> {
        self.files.get_mut(name)
    }

    /// Keeps a file open. Where too many are open the first of them is closed, and where there is no
    /// memory for its name it is closed itself.
    pub(crate) fn keep(&mut self, alloc: Global, name: &[u8], file: F) {
        if self.files.len() >= MOST_OPEN {
            let _ = self.files.shift_remove_index(0);
        }
        if let Ok(name) = Vec::from_slice(alloc, name) {
            let _ = self.files.insert(name, file);
        }
    }

    /// Closes the file of this name, where it is open.
    pub(crate) fn close(&mut self, name: &[u8]) {
        let _ = self.files.shift_remove(name);
    }

    /// Closes all files. Whether one was open.
    pub(crate) fn close_all(&mut self) -> bool {
        let some = !self.files.is_empty();
        self.files.clear();
        some
    }
}
