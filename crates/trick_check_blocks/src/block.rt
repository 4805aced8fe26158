//! Blocks, with the frames that they need.

ghost use Rattle.std.specs.Prelude.{◌≡◌, ◌+◌, ◌∷◌, [], max, IfOk, OnOk, length};
ghost use Rattle.trick_check_blocks.specs.Bodies.{all_depth, branch_depth, code_depth, depth_at, with_body};
ghost use Rattle.trick_check_blocks.specs.Held.{bodies_of};
ghost use Rattle.trick_lang.specs.TreeOf.{branches_of, code_list, code_of, else_of};

use std::alloc::{AllocError, Global};
use trick_base::Items;
use trick_lang::{Block, Branch, Stmt};

// So many blocks fit their numbers.
const BLOCK_LIMIT: usize = 1_000_000_000;

// The frames of a block, by its number.
fn depth_of(block: u32, blocks: &[Block]) -> u64
    ensures { result ≡ depth_at (bodies_of blocks.now) block }
{
    let number = block as usize;
    if number >= blocks.len() {
        return 1;
    }
    blocks[number].deep
}

// The frames of what stands after the last `else`.
fn depth_of_else(otherwise: Option<u32>, blocks: &[Block]) -> u64
    ensures { result ≡ branch_depth (else_of otherwise) (bodies_of blocks.now) }
{
    match otherwise {
        None => 0,
        Some(block) => depth_of(block, blocks),
    }
}

fn depth_of_if(branches: &[Branch], otherwise: Option<u32>, blocks: &[Block]) -> u64
    ensures { result ≡ branch_depth (branches_of branches.now (else_of otherwise)) (bodies_of blocks.now) }
{
    let mut deepest = depth_of_else(otherwise, blocks);
    for branch in branches {
        deepest = deepest.max(depth_of(branch.block, blocks));
    }
    deepest
}

fn one_more(frames: u64) -> Result<u64, AllocError>
    ensures { IfOk result (λ more. more ≡ frames + 1) }
{
    match frames.checked_add(1) {
        None => Err(AllocError),
        Some(more) => Ok(more),
    }
}

// The frames of what a statement runs.
fn depth_of_statement(s: &Stmt, blocks: &[Block]) -> Result<u64, AllocError>
    ensures { IfOk result (λ frames. frames ≡ code_depth (code_of s.now) (bodies_of blocks.now)) }
{
    match s {
        Stmt::If {
            branches,
            otherwise,
        } => Ok(depth_of_if(branches, *otherwise, blocks)),
        Stmt::For {
            slot: _,
            from: _,
            bound: _,
            block,
        } => one_more(depth_of(*block, blocks)),
        Stmt::Run(block) => Ok(depth_of(*block, blocks)),
        _ => Ok(0),
    }
}

fn depth_of_all(statements: &[Stmt], blocks: &[Block]) -> Result<u64, AllocError>
    ensures { IfOk result (λ frames. frames ≡ all_depth (code_list statements.now) (bodies_of blocks.now)) }
{
    let mut deepest = 0;
    for s in statements {
        deepest = depth_of_statement(s, blocks)?.max(deepest);
    }
    Ok(deepest)
}

/// How many blocks there are.
pub fn count_of(blocks: &Vec<Block>) -> usize
    ensures { result ≡ length blocks.now.items }
{
    blocks.len()
}

/// Adds a block of a class after those that it runs, and gives its number.
pub fn add_block(
    class: u32,
    statements: Vec<Stmt>,
    blocks: &mut Vec<Block>,
) -> Result<u32, AllocError>
    ensures number { IfOk result (λ number. number ≡ length blocks.old.items) }
    ensures blocks { OnOk result (bodies_of blocks.new.items
        ≡ with_body class (code_list statements.items) (bodies_of blocks.old.items)) }
    ensures length { OnOk result (length blocks.new.items ≡ length blocks.old.items + 1) }
{
    let number = blocks.len();
    if number > BLOCK_LIMIT {
        return Err(AllocError);
    }
    let deep = one_more(depth_of_all(&statements, blocks)?)?;
    blocks.push(Block {
        class,
        statements: Items::from_vec(statements),
        deep,
    })?;
    Ok(number as u32)
}

/// Adds a block of a class that has one statement, and gives its number.
pub fn add_single(
    alloc: Global,
    class: u32,
    statement: Stmt,
    blocks: &mut Vec<Block>,
) -> Result<u32, AllocError>
    ensures number { IfOk result (λ number. number ≡ length blocks.old.items) }
    ensures blocks { OnOk result (bodies_of blocks.new.items
        ≡ with_body class (code_of statement ∷ []) (bodies_of blocks.old.items)) }
    ensures length { OnOk result (length blocks.new.items ≡ length blocks.old.items + 1) }
{
    let mut statements = Vec::new(alloc);
    statements.push(statement)?;
    add_block(class, statements, blocks)
}
