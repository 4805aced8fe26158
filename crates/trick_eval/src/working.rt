ghost use Rattle.std.specs.Prelude.{◌≡◌, ◌≤◌, ◌^◌, IfOk, None, length, replicate};

use crate::sparse::Sparse;
use std::alloc::{AllocError, Global};
use std::marker::Model;

/// How far a body has come: what it stored, by cell, and its local variables, by slot.
#[derive(Drop)]
pub struct Working {
    stored: Sparse,
    locals: Sparse,
}

impl Model for Working {
    ghost use Rattle.trick_lang.specs.Run.{State};

    ghost Value = { State };

    ghost view = { λ w. record { stored = w.stored; locals = w.locals } };
}

impl Working {
    ghost use Rattle.trick_eval.specs.Evaluation.{seen};
    ghost use Rattle.trick_lang.specs.Run.{local_of, with_local, with_stored};
    ghost use Rattle.std.specs.List.{slice_index_or};
    ghost use Rattle.trick_eval.specs.Sparse.{AreAmong};

    /// Nothing stored in so many cells, and nothing in so many slots.
    pub fn new(alloc: Global, cells: usize, slots: usize) -> Result<Self, AllocError>
        requires cells { cells ≤ 2 ^ 32 }
        requires slots { slots ≤ 2 ^ 32 }
        ensures { IfOk result (λ w. w ≡
            record { stored = replicate cells None; locals = replicate slots None }) }
    {
        let stored = Sparse::new(alloc, cells)?;
        let locals = Sparse::new(alloc, slots)?;
        Ok(Working { stored, locals })
    }

    /// The number in a slot.
    pub fn local(&self, slot: u32) -> i64
        ensures { result ≡ local_of self.now slot }
    {
        self.locals.get(slot as usize).unwrap_or(0)
    }

    /// What a body sees in a cell: the number that it stored there last, or else the memory's.
    pub fn cell(&self, memory: &[i64], cell: usize) -> i64
        ensures { result ≡ (seen 0 memory.now self.now).cell cell }
    {
        match self.stored.get(cell) {
            Some(number) => number,
            None => { if cell < memory.len() { memory[cell] } else { 0 } }
        }
    }

    /// Gives a slot a number.
    pub fn set_local(&mut self, slot: u32, number: i64)
        ensures { self.new ≡ with_local self.old slot number }
    {
        self.locals.set(slot as usize, number);
    }

    /// Stores a number to a cell.
    pub fn store(&mut self, cell: usize, number: i64)
        ensures { self.new ≡ with_stored self.old cell number }
    {
        self.stored.set(cell, number);
    }

    /// What was stored in a cell.
    pub fn stored(&self, cell: usize) -> Option<i64>
        ensures { result ≡ slice_index_or self.now.stored cell None }
    {
        self.stored.get(cell)
    }

    /// The cells in which something was stored.
    pub fn cells(&self) -> &[u32]
        ensures { AreAmong result.now self.now.stored }
    {
        self.stored.places()
    }

    /// Forgets the local variables.
    pub fn clear_locals(&mut self)
        ensures { self.new ≡ record { stored = self.old.stored; locals = replicate (length self.old.locals) None } }
    {
        self.locals.clear();
    }

    /// Forgets what was stored.
    pub fn clear_stored(&mut self)
        ensures { self.new ≡ record { stored = replicate (length self.old.stored) None; locals = self.old.locals } }
    {
        self.stored.clear();
    }
}
