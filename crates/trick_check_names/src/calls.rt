//! Which methods of a class call which.

ghost use Rattle.std.specs.Prelude.{◌≡◌, ◌++◌, IfOk, OnOk};
ghost use Rattle.trick_lang.specs.Syntax.{branches_of_list, class_part_of, class_parts_of, else_of_option, statement_of, statements_of_list};
ghost use Rattle.trick_check_names.specs.Calls.{all_calls, branch_calls, class_calls, method_of, part_calls, statement_calls};
ghost use Rattle.trick_check_names.specs.Names.{meaning_of};

use crate::{Member, Names};
use std::alloc::{AllocError, Global};
use trick_base::{Items, Word};
use trick_lang::syntax::{Branch, ClassPart, Stmt};

fn add_call(name: &Word, own: &Names<Member>, calls: &mut Items<usize>) -> Result<(), AllocError>
    ensures { OnOk result (calls.new ≡ calls.old ++ method_of (meaning_of name.now own.now)) }
{
    if let Some(Member::Method(number)) = own.meaning(name) {
        calls.push(number)?;
    }
    Ok(())
}

#[cycle(calls)]
fn add_statement(s: &Stmt, own: &Names<Member>, calls: &mut Items<usize>) -> Result<(), AllocError>
    ensures { OnOk result (calls.new ≡ calls.old ++ statement_calls (statement_of s.now) own.now) }
{
    match s {
        Stmt::Block(all) => add_all(all, own, calls),
        Stmt::If {
            branches,
            otherwise,
        } => add_branches(branches, otherwise, own, calls),
        Stmt::For {
            name: _,
            from: _,
            bound: _,
            body,
        } => add_statement(body, own, calls),
        Stmt::Call { line: _, name } => add_call(name, own, calls),
        Stmt::Empty => Ok(()),
        Stmt::Declare {
            line: _,
            written: _,
            name: _,
            value: _,
        } => Ok(()),
        Stmt::Assign {
            line: _,
            path: _,
            change: _,
        } => Ok(()),
    }
}

#[cycle(calls)]
fn add_branches(
    branches: &[Branch],
    otherwise: &Option<Box<Stmt>>,
    own: &Names<Member>,
    calls: &mut Items<usize>,
) -> Result<(), AllocError>
    ensures { OnOk result (calls.new ≡ calls.old
        ++ branch_calls (branches_of_list branches.now (else_of_option otherwise.now)) own.now) }
{
    for branch in branches {
        add_statement(&branch.body, own, calls)?;
    }
    match otherwise {
        Some(body) => add_statement(body, own, calls),
        None => Ok(()),
    }
}

// Adds the calls of the statements of a block. Each level of the text's nesting, of which there are
// at most 64, is two calls deep.
#[cycle(calls)]
fn add_all(all: &[Stmt], own: &Names<Member>, calls: &mut Items<usize>) -> Result<(), AllocError>
    ensures { OnOk result (calls.new ≡ calls.old ++ all_calls (statements_of_list all.now) own.now) }
{
    for s in all {
        add_statement(s, own, calls)?;
    }
    Ok(())
}

fn calls_of_part(
    alloc: Global,
    part: &ClassPart,
    own: &Names<Member>,
) -> Result<Items<usize>, AllocError>
    ensures { IfOk result (λ calls. calls ≡ part_calls (class_part_of part.now) own.now) }
{
    let mut calls = Items::new(alloc);
    if let ClassPart::Method(method) = part {
        add_all(method.body.as_slice(), own, &mut calls)?;
    }
    Ok(calls)
}

/// For each part of a class the methods that it calls, by the numbers of their parts, where the
/// class has these members.
pub fn calls_of_class(
    alloc: Global,
    parts: &[ClassPart],
    own: &Names<Member>,
) -> Result<Vec<Items<usize>>, AllocError>
    ensures { IfOk result (λ calls. calls.items ≡ class_calls (class_parts_of parts.now) own.now) }
{
    let mut calls = Vec::new(alloc);
    for part in parts {
        let of_part = calls_of_part(alloc, part, own)?;
        calls.push(of_part)?;
    }
    Ok(calls)
}
