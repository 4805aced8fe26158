//! A place for a memory, and what is done to it.
use crate::cells::Cells;
use std::collections::LinkedList;
use std::marker::Model;
use trick_turn::Keeps;

/// What one turn did to the board. The first number is the pass's. Only proofs have such a value.
pub enum Entry {
    /// The board was opened: the numbers of the memory, the flags and the tic.
    Open(u64, LinkedList<u64>, LinkedList<bool>, u64),
    /// A number was stored: the cell and the number.
    Store(u64, usize, u64),
    /// The board was closed.
    Close(u64),
}

/// A place for a memory, which is open while it has one.
#[derive(Drop)]
pub struct Board<M> {
    memory: Option<M>,
}

impl<M> Model for Board<M> {
    ghost use Rattle.std.specs.Prelude.{Option};

    ghost Value = { Option M };

    ghost view = { λ b. b.memory };
}

impl<M: Cells> Keeps for Board<M> {
    ghost use Rattle.trick_turn_tests.specs.Entries.{seat_of};
    ghost use Rattle.trick_turn_tests.specs.Histories.{Stands};
    ghost use Rattle.std.specs.Option.{option_map};

    type Entry = Entry;

    ghost stands = { λ b log. Stands (option_map M.numbers b) log };

    ghost seat = { seat_of };
}

impl<M: Cells + Drop> Board<M> {
    ghost use Rattle.std.specs.Prelude.{◌≡◌, Some, None, IsSome, is_some, slice_set};
    ghost use Rattle.std.specs.Option.{option_map};

    /// A closed board.
    pub fn new() -> Board<M>
        ensures { result ≡ None }
    {
        Board { memory: None }
    }

    /// Opens the board with a memory.
    pub fn open(&mut self, memory: M)
        ensures { self.new ≡ Some memory }
    {
        self.memory = Some(memory);
    }

    /// Stores a number into the memory, if the board is open.
    pub fn store(&mut self, cell: usize, number: u64) -> bool
        ensures open { result ≡ is_some self.old }
        ensures stored { option_map M.numbers self.new
            ≡ option_map (λ xs. slice_set xs cell number) (option_map M.numbers self.old) }
    {
        match &mut self.memory {
            Some(memory) => {
                memory.store(cell, number);
                true
            }
            None => false,
        }
    }

    /// Closes an open board, and gives its memory.
    pub fn close(&mut self) -> M
        requires { IsSome self.old }
        ensures memory { self.old ≡ Some result }
        ensures closed { self.new ≡ None }
    {
        self.memory.take().unwrap()
    }
}
