//! Ranks of methods, by a search in depth: methods that reach one another get one rank, and no call leads
//! to a higher one. Nothing is said of the ranks that are found: whoever rests on them tests them.

use std::alloc::{AllocError, Global};
use trick_base::Items;

/// How far the search has come.
#[derive(Drop)]
struct Walk {
    /// For each method the how manyth was begun; 0 where it was not.
    number: Vec<usize>,
    /// For each method the least number of one without a rank that it was seen to reach.
    least: Vec<usize>,
    /// How many callees of each method were passed.
    next: Vec<usize>,
    /// The rank of each method, from 1 on; 0 where it has none.
    rank: Vec<usize>,
    /// Methods without a rank, in the order in which they were begun.
    open: Vec<usize>,
    /// Methods of which each calls the next one.
    path: Vec<usize>,
    /// How many methods were begun.
    begun: usize,
    /// How many ranks there are.
    ranks: usize,
    /// How many methods were begun as the first of a path, or passed.
    root: usize,
}

fn start(alloc: Global, count: usize) -> Result<Walk, AllocError> {
    Ok(Walk {
        number: vec![in alloc; 0; count]?,
        least: vec![in alloc; 0; count]?,
        next: vec![in alloc; 0; count]?,
        rank: vec![in alloc; 0; count]?,
        open: Vec::new(alloc),
        path: Vec::new(alloc),
        begun: 0,
        ranks: 0,
        root: 0,
    })
}

// The number of a method, and 0 of one that is not there.
fn at(numbers: &[usize], method: usize) -> usize {
    if method < numbers.len() {
        numbers[method]
    } else {
        0
    }
}

fn put(numbers: &mut Vec<usize>, method: usize, number: usize) {
    if method < numbers.len() {
        numbers[method] = number;
    }
}

fn last(path: &[usize]) -> Option<usize> {
    if path.is_empty() {
        None
    } else {
        Some(path[path.len() - 1])
    }
}

// A method is begun.
fn begin(walk: &mut Walk, method: usize) -> Result<(), AllocError> {
    let number = walk.begun.saturating_add(1);
    walk.begun = number;
    put(&mut walk.number, method, number);
    put(&mut walk.least, method, number);
    walk.open.push(method)?;
    walk.path.push(method)?;
    Ok(())
}

// A method was seen to reach the one of that number.
fn note(walk: &mut Walk, method: usize, number: usize) {
    let least = at(&walk.least, method).min(number);
    put(&mut walk.least, method, least);
}

// A callee of a method is begun where it was not, and else noted where it has no rank.
fn pass(walk: &mut Walk, method: usize, callee: usize) -> Result<(), AllocError> {
    let number = at(&walk.number, callee);
    if number == 0 {
        return begin(walk, callee);
    }
    if at(&walk.rank, callee) == 0 {
        note(walk, method, number);
    }
    Ok(())
}

// This method and those that were begun after it and have no rank get the next one.
fn rank(walk: &mut Walk, method: usize) {
    let rank = walk.ranks.saturating_add(1);
    walk.ranks = rank;
    for _place in 0..walk.open.len() {
        let Some(found) = walk.open.pop() else {
            return;
        };
        put(&mut walk.rank, found, rank);
        if found == method {
            return;
        }
    }
}

// All callees of the last method of the path were passed.
fn leave(walk: &mut Walk, method: usize) {
    let _ = walk.path.pop();
    let least = at(&walk.least, method);
    if least == at(&walk.number, method) {
        rank(walk, method);
    }
    if let Some(caller) = last(&walk.path) {
        note(walk, caller, least);
    }
}

// The next method is begun as the first of a path, or is passed where it was begun.
fn next_root(walk: &mut Walk) -> Result<(), AllocError> {
    let root = walk.root;
    walk.root = root.saturating_add(1);
    if root < walk.number.len() && at(&walk.number, root) == 0 {
        return begin(walk, root);
    }
    Ok(())
}

// The callee of a method at that place.
fn callee_at(calls: &[Items<usize>], method: usize, place: usize) -> Option<usize> {
    match calls.get(method) {
        None => None,
        Some(callees) => callees.as_slice().get(place).copied(),
    }
}

fn step(calls: &[Items<usize>], walk: &mut Walk) -> Result<(), AllocError> {
    let Some(method) = last(&walk.path) else {
        return next_root(walk);
    };
    let next = at(&walk.next, method);
    match callee_at(calls, method, next) {
        None => {
            leave(walk, method);
            Ok(())
        }
        Some(callee) => {
            put(&mut walk.next, method, next.saturating_add(1));
            pass(walk, method, callee)
        }
    }
}

// The steps of a search: each method is tried as a root and left, and each callee is passed.
fn step_count(calls: &[Items<usize>]) -> usize {
    let mut count: usize = 0;
    for callees in calls {
        count = count.saturating_add(2).saturating_add(callees.len());
    }
    count
}

/// A rank for each method. It takes time in the number of methods and calls.
pub fn ranks(alloc: Global, calls: &[Items<usize>]) -> Result<Vec<usize>, AllocError> {
    let mut walk = start(alloc, calls.len())?;
    for _step in 0..step_count(calls) {
        step(calls, &mut walk)?;
    }
    Ok(walk.rank)
}
