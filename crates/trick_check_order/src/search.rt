ghost use Rattle.std.specs.Prelude.{◌≡◌, ◌+◌, ◌^◌, ◌<◌, ◌≤◌, ◌∷◌, ◌++◌, ℕ, [], false, true, length, slice_index_or, IfNone, IfOk, IfSome, OnOk, MatchBool, MatchOption, Err};
ghost use Rattle.trick_check_order.specs.Calls.{AreCallees, EndsWith, IsFirst, IsOrderOf, ReachesItself, callees, has, is_linked, order_of};
ghost use Rattle.trick_check_order.specs.Searching.{Keeps, left};
ghost use Rattle.trick_check_order.specs.declared.search.OrderFault.TheVariants.{Recursive};

use crate::reach::{callees, first_recursive};
use crate::rounds::by_rounds;
use std::alloc::{AllocError, Global};
use trick_base::Items;

/// Why there is no order.
#[derive(Clone, Copy, Debug, PartialEq, Eq)]
pub enum OrderFault {
    /// The first method that reaches itself.
    Recursive(usize),
    /// There was no memory left.
    OutOfMemory,
}

/// How far a search in depth has come.
#[derive(Drop)]
pub struct Search {
    /// Whether a method is in the order.
    pub done: Vec<bool>,
    /// Whether a method is on the stack.
    pub stacked: Vec<bool>,
    /// How many callees of a method on the stack were passed, which are in the order.
    pub next: Vec<usize>,
    /// Methods, each after those that it calls.
    pub order: Vec<usize>,
    /// Methods of which each calls the next one.
    pub stack: Vec<usize>,
    /// How many methods were begun as the first of a stack, one after another.
    pub root: usize,
}

fn start(alloc: Global, calls: &[Items<usize>]) -> Result<Search, AllocError>
    ensures { IfOk result (λ s. Keeps calls.now s) }
{
    Ok(Search {
        done: vec![in alloc; false; calls.len()]?,
        stacked: vec![in alloc; false; calls.len()]?,
        next: vec![in alloc; 0; calls.len()]?,
        order: Vec::new(alloc),
        stack: Vec::new(alloc),
        root: 0,
    })
}

// The last method on the stack.
fn last(search: &Search) -> usize
    requires some { 0 < length search.now.stack.items }
    ensures { EndsWith search.now.stack.items result }
{
    search.stack[search.stack.len() - 1]
}

// Whether a method is in the order.
fn is_done(calls: &[Items<usize>], search: &Search, method: usize) -> bool
    requires keeps { Keeps calls.now search.now }
    requires here { method < length calls.now }
    ensures { result ≡ has search.now.order.items method }
{
    let _ = calls.len();
    search.done[method]
}

// Whether a method is on the stack.
fn is_stacked(calls: &[Items<usize>], search: &Search, method: usize) -> bool
    requires keeps { Keeps calls.now search.now }
    requires here { method < length calls.now }
    ensures { result ≡ has search.now.stack.items method }
{
    let _ = calls.len();
    search.stacked[method]
}

// The first callee of a method on the stack that was not passed.
fn next_callee(calls: &[Items<usize>], search: &Search, method: usize) -> Option<usize>
    requires keeps { Keeps calls.now search.now }
    requires open { has search.now.stack.items method ≡ true }
    ensures more { IfSome result (λ callee.
        slice_index_or search.now.next.items method 0 < length (callees calls.now method)) }
    ensures next { IfSome result (λ callee.
        callee ≡ slice_index_or (callees calls.now method) (slice_index_or search.now.next.items method 0) 0) }
    ensures none { IfNone result (length (callees calls.now method) ≤ slice_index_or search.now.next.items method 0) }
{
    let callees = callees(calls, method);
    let next = search.next[method];
    if next < callees.len() {
        Some(callees[next])
    } else {
        None
    }
}

// The next callee of a method on the stack is in the order, and is passed.
fn advance(calls: &[Items<usize>], search: &mut Search, method: usize)
    requires keeps { Keeps calls.now search.old }
    requires open { has search.old.stack.items method ≡ true }
    requires more { slice_index_or search.old.next.items method 0 < length (callees calls.now method) }
    requires callee { has search.old.order.items
        (slice_index_or (callees calls.now method) (slice_index_or search.old.next.items method 0) 0) ≡ true }
    ensures keeps { Keeps calls.now search.new }
    ensures falls { left calls.now search.new < left calls.now search.old }
{
    let _ = callees(calls, method).len();
    let next = search.next[method];
    search.next[method] = next + 1;
}

// A method is begun.
fn begin(calls: &[Items<usize>], search: &mut Search, method: usize) -> Result<(), AllocError>
    requires keeps { Keeps calls.now search.old }
    requires here { method < length calls.now }
    requires fresh { has search.old.order.items method ≡ false }
    requires closed { has search.old.stack.items method ≡ false }
    requires linked { is_linked calls.now (search.old.stack.items ++ method ∷ []) ≡ true }
    ensures keeps { OnOk result (Keeps calls.now search.new) }
    ensures falls { OnOk result (left calls.now search.new < left calls.now search.old) }
{
    let _ = calls.len();
    search.stack.push(method)?;
    search.stacked[method] = true;
    search.next[method] = 0;
    Ok(())
}

// The last method on the stack is put after those that it calls.
fn finish(calls: &[Items<usize>], search: &mut Search) -> Result<(), AllocError>
    requires keeps { Keeps calls.now search.old }
    requires passed { (m : ℕ) → EndsWith search.old.stack.items m →
        length (callees calls.now m) ≤ slice_index_or search.old.next.items m 0 }
    requires some { 0 < length search.old.stack.items }
    ensures keeps { OnOk result (Keeps calls.now search.new) }
    ensures falls { OnOk result (left calls.now search.new < left calls.now search.old) }
{
    let _ = calls.len();
    if let Some(method) = search.stack.pop() {
        search.order.push(method)?;
        search.done[method] = true;
        search.stacked[method] = false;
    }
    Ok(())
}

// The next method is begun as the first of a stack, or is passed where it is in the order.
fn next_root(calls: &[Items<usize>], search: &mut Search) -> Result<(), AllocError>
    requires keeps { Keeps calls.now search.old }
    requires here { search.old.root < length calls.now }
    requires empty { search.old.stack.items ≡ [] }
    ensures keeps { OnOk result (Keeps calls.now search.new) }
    ensures falls { OnOk result (left calls.now search.new < left calls.now search.old) }
{
    let root = search.root;
    if !is_done(calls, search, root) {
        return begin(calls, search, root);
    }
    search.root = root + 1;
    Ok(())
}

// One step with the last method on the stack; and whether it calls one on the stack, which so
// reaches itself.
fn step(calls: &[Items<usize>], search: &mut Search) -> Result<bool, AllocError>
    requires callees { AreCallees calls.now }
    requires keeps { Keeps calls.now search.old }
    requires some { 0 < length search.old.stack.items }
    ensures met { IfOk result (λ met. met ≡ true →
        (k : ℕ) × (k < length calls.now) × ReachesItself calls.now k) }
    ensures keeps { IfOk result (λ met. met ≡ false → Keeps calls.now search.new) }
    ensures falls { IfOk result (λ met. met ≡ false → left calls.now search.new < left calls.now search.old) }
{
    let method = last(search);
    let Some(callee) = next_callee(calls, search, method) else {
        finish(calls, search)?;
        return Ok(false);
    };
    if is_done(calls, search, callee) {
        advance(calls, search, method);
        return Ok(false);
    }
    if is_stacked(calls, search, callee) {
        return Ok(true);
    }
    begin(calls, search, callee)?;
    Ok(false)
}

// An order, or None where a method reaches itself.
fn searched(alloc: Global, calls: &[Items<usize>]) -> Result<Option<Vec<usize>>, AllocError>
    requires callees { AreCallees calls.now }
    ensures { IfOk result (λ found. MatchOption found
        ((k : ℕ) × (k < length calls.now) × ReachesItself calls.now k)
        (λ order. IsOrderOf calls.now order.items)) }
{
    let mut search = start(alloc, calls)?;
    while search.root < calls.len() || !search.stack.is_empty() {
        if search.stack.is_empty() {
            next_root(calls, &mut search)?;
        } else if step(calls, &mut search)? {
            return Ok(None);
        }
    }
    Ok(Some(search.order))
}

/// All methods in their one order, where none reaches itself: by rounds, first those that call none,
/// then those that call none but methods of earlier rounds, and so on; in a round by their numbers. So
/// each stands after those that it calls. `calls` has for each method those that it calls, by number.
/// An order and a fault, which names the first method that reaches itself, take time in the number of
/// methods and calls.
pub fn order(alloc: Global, calls: &[Items<usize>]) -> Result<Vec<usize>, OrderFault>
    requires callees { AreCallees calls.now }
    ensures order { IfOk result (λ order. order.items ≡ order_of calls.now) }
    ensures ordered { IfOk result (λ order. IsOrderOf calls.now order.items) }
    ensures recursive { (k : ℕ) → result ≡ Err (Recursive k) → IsFirst calls.now k }
{
    match searched(alloc, calls) {
        Ok(Some(found)) => match by_rounds(alloc, calls, &found) {
            Ok(order) => Ok(order),
            Err(_) => Err(OrderFault::OutOfMemory),
        },
        Ok(None) => match first_recursive(alloc, calls) {
            Ok(Some(method)) => Err(OrderFault::Recursive(method)),
            Ok(None) => Err(OrderFault::OutOfMemory),
            Err(_) => Err(OrderFault::OutOfMemory),
        },
        Err(_) => Err(OrderFault::OutOfMemory),
    }
}
