ghost use Rattle.std.specs.List.{slice_index_or};
ghost use Rattle.std.specs.Prelude.{◌≡◌, ◌≤◌, ◌^◌, IfOk, None, Some, length, replicate, slice_set};
ghost use Rattle.trick_eval.specs.Sparse.{AreAmong};

use std::alloc::{AllocError, Global};
use std::marker::Model;

/// A list of optional numbers that is emptied in the time of those that are there.
#[derive(Drop)]
pub struct Sparse {
    numbers: Vec<Option<i64>>,
    /// The places that have a number.
    places: Vec<u32>,
}

impl Model for Sparse {
    ghost use Rattle.std.specs.Prelude.{List, Option, ℤ, vec_capacity};
    ghost use Rattle.trick_eval.specs.Sparse.{IsListed};

    ghost Value = { List (Option ℤ) };

    ghost view = { λ s. s.numbers.items };

    ghost invariant = { λ s. IsListed s.places.items s.numbers.items (vec_capacity s.places) };
}

impl Sparse {
    /// No numbers, in so many places.
    pub fn new(alloc: Global, length: usize) -> Result<Self, AllocError>
        requires { length ≤ 2 ^ 32 }
        ensures { IfOk result (λ s. s ≡ replicate length None) }
    {
        let numbers = vec![in alloc; None; length]?;
        let places = Vec::with_capacity(alloc, length)?;
        Ok(Sparse { numbers, places })
    }

    /// The number in a place.
    pub fn get(&self, place: usize) -> Option<i64>
        ensures { result ≡ slice_index_or self.now place None }
    {
        if place < self.numbers.len() {
            self.numbers[place]
        } else {
            None
        }
    }

    /// Gives a place a number.
    pub fn set(&mut self, place: usize, number: i64)
        ensures { self.new ≡ slice_set self.old place (Some number) }
    {
        if place >= self.numbers.len() {
            return;
        }
        match self.get(place) {
            Some(_old) => put(&mut self.numbers, place, Some(number)),
            None => {
                self.places.push_reserved(place as u32);
                put(&mut self.numbers, place, Some(number));
            }
        }
    }

    /// The places that have a number.
    pub fn places(&self) -> &[u32]
        ensures { AreAmong result.now self.now }
    {
        self.places.as_slice()
    }

    /// Takes all numbers out.
    pub fn clear(&mut self)
        ensures { self.new ≡ replicate (length self.old) None }
    {
        for i in 0..self.places.len() {
            let place = self.places[i];
            put(&mut self.numbers, place as usize, None);
        }
        self.places.clear();
    }
}

fn put(numbers: &mut Vec<Option<i64>>, place: usize, number: Option<i64>)
    ensures { numbers.new.items ≡ slice_set numbers.old.items place number }
{
    if place < numbers.len() {
        numbers[place] = number;
    }
}
