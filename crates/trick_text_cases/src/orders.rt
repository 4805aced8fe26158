//! The order of methods that call one another.

use crate::call::{Call, number_of};
use std::alloc::{AllocError, Global};
use trick_base::Items;
use trick_cases_report::Report;
use trick_check_order::{OrderFault, are_callees, laws, order};

// How many methods of an order are shown at most.
const SHOWN: usize = 10;

// The methods that a method calls: `2,1`, or `-` for none.
fn callees_of(alloc: Global, word: &str) -> Result<Items<usize>, AllocError> {
    let mut callees = Items::new(alloc);
    if word != "-" {
        for number in word.split(',') {
            callees.push(number_of(number) as usize)?;
        }
    }
    Ok(callees)
}

// Adds the methods in their order, the first ones alone where they are many.
fn shown(methods: &[usize], report: &mut Report) {
    report.word("order");
    for method in methods.iter().take(SHOWN) {
        report.number(" ", *method as u64, "");
    }
    if methods.len() > SHOWN {
        report.number(" .. of ", methods.len() as u64, " methods");
    }
}

// Adds whether all that is called is there, and then the order of the methods or the first that reaches itself.
fn told(alloc: Global, calls: &[Items<usize>], report: &mut Report) {
    if !are_callees(calls) {
        report.word("calls what is not there");
        return;
    }
    match order(alloc, calls) {
        Ok(found) => shown(&found, report),
        Err(OrderFault::Recursive(method)) => report.number("", method as u64, " reaches itself"),
        Err(OrderFault::OutOfMemory) => report.word("out of memory"),
    }
}

// Adds a method that calls those of a word.
fn add(alloc: Global, calls: &mut Vec<Items<usize>>, word: &str) -> Result<(), AllocError> {
    let callees = callees_of(alloc, word)?;
    calls.push(callees)?;
    Ok(())
}

/// The order of methods, whose words have the methods that each of them calls.
pub(crate) fn order_of(
    alloc: Global,
    call: &Call<'_>,
    report: &mut Report,
) -> Result<(), AllocError> {
    laws::order_law();
    laws::one_order_law();
    laws::worked_orders();
    let mut calls = Vec::new(alloc);
    for word in call.words.split_terminator(' ') {
        add(alloc, &mut calls, word)?;
    }
    told(alloc, &calls, report);
    Ok(())
}

// The methods of a chain but its last one: each calls the next.
fn callers(alloc: Global, count: usize) -> Result<Vec<Items<usize>>, AllocError> {
    let mut calls = Vec::new(alloc);
    for method in 0..count {
        add_caller(alloc, &mut calls, method.saturating_add(1))?;
    }
    Ok(calls)
}

// Adds a method that calls this one.
fn add_caller(
    alloc: Global,
    calls: &mut Vec<Items<usize>>,
    method: usize,
) -> Result<(), AllocError> {
    let mut next = Items::new(alloc);
    next.push(method)?;
    calls.push(next)?;
    Ok(())
}

/// The order of so many methods, each of which calls the next one.
pub(crate) fn chain_order(
    alloc: Global,
    call: &Call<'_>,
    report: &mut Report,
) -> Result<(), AllocError> {
    let last = call.number(0).min(100_000).saturating_sub(1) as usize;
    let mut calls = callers(alloc, last)?;
    calls.push(Items::new(alloc))?;
    told(alloc, &calls, report);
    Ok(())
}
