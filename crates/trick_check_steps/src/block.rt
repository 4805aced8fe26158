//! Steps of statements and blocks.

ghost use Rattle.std.specs.Prelude.{◌≡◌, IfOk};
ghost use Rattle.trick_base.specs.Capped.{capped};
ghost use Rattle.trick_lang.specs.Count.{all_steps, branch_steps, code_steps};
ghost use Rattle.trick_lang.specs.Run.{turn_count};
ghost use Rattle.trick_lang.specs.TreeOf.{branches_of, code_list, code_of, codes_of, else_of};
ghost use Rattle.trick_check_steps.specs.Steps.{blocks_steps, count_at};

use crate::expression::{change_steps, expression_steps, first_steps, index_steps};
use std::alloc::{AllocError, Global};
use trick_lang::{Block, Bound, Branch, Stmt};

fn count_at(counts: &[u64], number: u32) -> u64
    ensures { result ≡ count_at counts.now number }
{
    let place = number as usize;
    if place < counts.len() {
        counts[place]
    } else {
        0
    }
}

fn turn_count(from: u64, bound: Bound) -> u64
    ensures { result ≡ turn_count from bound }
{
    match bound {
        Bound::Below(bound) => u64::from(bound).saturating_sub(from),
        Bound::UpTo(bound) => (u64::from(bound) + 1).saturating_sub(from),
    }
}

// What stands after the last `else`.
fn else_steps(otherwise: Option<u32>, counts: &[u64]) -> u64
    ensures { result ≡ branch_steps (else_of otherwise) (count_at counts.now) }
{
    match otherwise {
        None => 0,
        Some(block) => count_at(counts, block),
    }
}

// The conditions, and the largest branch.
fn branch_steps(branches: &[Branch], otherwise: Option<u32>, counts: &[u64]) -> u64
    ensures { result ≡ capped (branch_steps (branches_of branches.now (else_of otherwise)) (count_at counts.now)) }
{
    let mut tests: u64 = 0;
    let mut most: u64 = 0;
    for branch in branches {
        let test = expression_steps(&branch.test).saturating_add(1);
        tests = tests.saturating_add(test);
        most = most.max(tests.saturating_add(count_at(counts, branch.block)));
    }
    most.max(tests.saturating_add(else_steps(otherwise, counts)))
}

fn statement_steps(statement: &Stmt, counts: &[u64]) -> u64
    ensures { result ≡ capped (code_steps (code_of statement.now) (count_at counts.now)) }
{
    match statement {
        Stmt::Empty => 1,
        Stmt::Declare { value, .. } => first_steps(value).saturating_add(1),
        Stmt::SetLocal { change, .. } => change_steps(change).saturating_add(1),
        Stmt::Assign { place, change, .. } => {
            let steps = index_steps(place).saturating_add(1);
            steps.saturating_add(change_steps(change))
        }
        Stmt::If {
            branches,
            otherwise,
        } => branch_steps(branches, *otherwise, counts),
        Stmt::For {
            from,
            bound,
            block,
            ..
        } => {
            let turn = count_at(counts, *block).saturating_add(1);
            turn_count(*from, *bound)
                .saturating_mul(turn)
                .saturating_add(1)
        }
        Stmt::Run(block) => count_at(counts, *block).saturating_add(1),
    }
}

// Statements one after another, where these are the steps of the blocks before.
fn all_steps(statements: &[Stmt], counts: &[u64]) -> u64
    ensures { result ≡ capped (all_steps (code_list statements.now) (count_at counts.now)) }
{
    let mut total: u64 = 0;
    for statement in statements {
        total = total.saturating_add(statement_steps(statement, counts));
    }
    total
}

/// The static steps of each block, at most 2^64 - 1, by its number.
pub fn steps(alloc: Global, blocks: &[Block]) -> Result<Vec<u64>, AllocError>
    ensures { IfOk result (λ steps. steps.items ≡ blocks_steps (codes_of blocks.now)) }
{
    let mut steps = Vec::new(alloc);
    for block in blocks {
        let count = all_steps(block.statements.as_slice(), &steps);
        steps.push(count)?;
    }
    Ok(steps)
}
