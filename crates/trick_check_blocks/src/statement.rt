//! Statements, and the blocks in them.

ghost use Rattle.std.specs.Prelude.{◌≡◌, ◌+◌, ◌∷◌, ◌++◌, [], IfOk, OnOk, length};
ghost use Rattle.trick_check_blocks.specs.Bodies.{with_bodies};
ghost use Rattle.trick_check_blocks.specs.Codes.{after, after_all, all_codes, all_count, all_inner, branch_codes, branch_count, branch_inner, call_code, change_term, code, count, declared_code, goal_code, inner, local_code, loop_code, value_term};
ghost use Rattle.trick_check_blocks.specs.Held.{bodies_of, goal_held};
ghost use Rattle.trick_check_blocks.specs.Room.{IsLaid};
ghost use Rattle.trick_check_blocks.specs.Terms.{path_goal};
ghost use Rattle.trick_lang.specs.Syntax as text;
ghost use Rattle.trick_lang.specs.Tree as codes;
ghost use Rattle.trick_lang.specs.TreeOf as tree;
ghost use Rattle.trick_check_names.specs.Names.{meaning_of};

use crate::block::{add_block, add_single};
use crate::local::{declare, enter_loop, scalar};
use crate::scope::ClassScope;
use crate::start::Local;
use crate::term::{Reached, resolve_expression, resolve_path};
use std::alloc::{AllocError, Global};
use trick_base::Word;
use trick_check_names::Names;
use trick_lang::{Block, Bound, Branch, Change, Expr, Scalar, Stmt, syntax};

// ---- what has no blocks

fn resolve_change(
    alloc: Global,
    change: &syntax::Change,
    scope: &ClassScope,
    locals: &Names<Local>,
) -> Result<Change, AllocError>
    requires laid { IsLaid scope.now }
    ensures { IfOk result (λ made. tree.change_of made
        ≡ change_term (text.change_of change.now) scope.now locals.now) }
{
    match change {
        syntax::Change::Set(e) => Ok(Change::Set(resolve_expression(alloc, e, scope, locals)?)),
        syntax::Change::Update(operator, e) => Ok(Change::Update(
            *operator,
            resolve_expression(alloc, e, scope, locals)?,
        )),
        syntax::Change::Increase => Ok(Change::Increase),
        syntax::Change::Decrease => Ok(Change::Decrease),
    }
}

fn resolve_value(
    alloc: Global,
    value: &Option<syntax::Expr>,
    scope: &ClassScope,
    locals: &Names<Local>,
) -> Result<Option<Expr>, AllocError>
    requires laid { IsLaid scope.now }
    ensures { IfOk result (λ made. tree.first_value_of made
        ≡ value_term (text.first_value_of value.now) scope.now locals.now) }
{
    match value {
        None => Ok(None),
        Some(e) => {
            let made = resolve_expression(alloc, e, scope, locals)?;
            Ok(Some(made))
        }
    }
}

fn declaration(line: u32, slot: Option<u32>, scalar: Scalar, value: Option<Expr>) -> Stmt
    ensures { tree.code_of result ≡ declared_code line slot scalar (tree.first_value_of value) }
{
    match slot {
        None => Stmt::Empty,
        Some(slot) => Stmt::Declare {
            line,
            slot,
            scalar,
            value,
        },
    }
}

fn assigned_local(line: u32, local: Local, change: Change) -> Stmt
    ensures { tree.code_of result ≡ local_code local line (tree.change_of change) }
{
    if local.is_loop {
        return Stmt::Empty;
    }
    Stmt::SetLocal {
        line,
        slot: local.slot,
        scalar: local.scalar,
        change,
    }
}

fn assigned(line: u32, reached: Reached, change: Change) -> Stmt
    ensures { tree.code_of result ≡ goal_code (goal_held reached) line (tree.change_of change) }
{
    match reached {
        Reached::Local(local) => assigned_local(line, local, change),
        Reached::Number(_) => Stmt::Empty,
        Reached::Place(place) => Stmt::Assign {
            line,
            place,
            change,
        },
        Reached::Nothing => Stmt::Empty,
    }
}

fn resolve_assign(
    alloc: Global,
    line: u32,
    path: &syntax::Path,
    change: &syntax::Change,
    scope: &ClassScope,
    locals: &Names<Local>,
) -> Result<Stmt, AllocError>
    requires laid { IsLaid scope.now }
    ensures { IfOk result (λ made. tree.code_of made
        ≡ goal_code (path_goal (text.path_of path.now) scope.now locals.now) line
        (change_term (text.change_of change.now) scope.now locals.now)) }
{
    let reached = resolve_path(alloc, path, scope, locals)?;
    let change = resolve_change(alloc, change, scope, locals)?;
    Ok(assigned(line, reached, change))
}

fn call(name: &Word, scope: &ClassScope) -> Stmt
    ensures { tree.code_of result ≡ call_code (meaning_of name.now scope.now.methods) }
{
    match scope.methods.meaning(name) {
        None => Stmt::Empty,
        Some(block) => Stmt::Run(block),
    }
}

fn looped(slot: Option<u32>, from: u64, bound: Bound, block: u32) -> Stmt
    ensures { tree.code_of result ≡ loop_code slot from bound block }
{
    match slot {
        None => Stmt::Empty,
        Some(slot) => Stmt::For {
            slot,
            from,
            bound,
            block,
        },
    }
}

// ---- statements and blocks

#[cycle(walk)]
fn resolve_statement(
    alloc: Global,
    s: &syntax::Stmt,
    scope: &ClassScope,
    locals: &mut Names<Local>,
    blocks: &mut Vec<Block>,
) -> Result<Stmt, AllocError>
    requires laid { IsLaid scope.now }
    ensures code { IfOk result (λ made. tree.code_of made
        ≡ code (text.statement_of s.now) scope.now locals.old (length blocks.old.items)) }
    ensures blocks { OnOk result (bodies_of blocks.new.items
        ≡ with_bodies scope.now.class (inner (text.statement_of s.now) scope.now locals.old (length blocks.old.items))
        (bodies_of blocks.old.items)) }
    ensures length { OnOk result (length blocks.new.items
        ≡ length blocks.old.items + count (text.statement_of s.now)) }
    ensures locals { OnOk result (locals.new ≡ after (text.statement_of s.now) scope.now locals.old) }
{
    match s {
        syntax::Stmt::Empty => Ok(Stmt::Empty),
        syntax::Stmt::Block(all) => {
            let mark = locals.len();
            let number = add_statements(alloc, all, scope, locals, blocks)?;
            locals.forget(mark);
            Ok(Stmt::Run(number))
        }
        syntax::Stmt::Declare {
            line,
            written,
            name,
            value,
        } => {
            let slot = declare(written, name, scope, locals)?;
            let value = resolve_value(alloc, value, scope, locals)?;
            Ok(declaration(*line, slot, scalar(written), value))
        }
        syntax::Stmt::Assign { line, path, change } => {
            resolve_assign(alloc, *line, path, change, scope, locals)
        }
        syntax::Stmt::If {
            branches,
            otherwise,
        } => resolve_if(alloc, branches, otherwise, scope, locals, blocks),
        syntax::Stmt::For {
            name,
            from,
            bound,
            body,
        } => {
            let mark = locals.len();
            let slot = enter_loop(name, *bound, scope, locals)?;
            let block = resolve_body(alloc, body, scope, locals, blocks)?;
            locals.forget(mark);
            Ok(looped(slot, *from, *bound, block))
        }
        syntax::Stmt::Call { line: _, name } => Ok(call(name, scope)),
    }
}

/// Adds the block of these statements after those in it, and gives its number.
#[cycle(walk)]
pub fn add_statements(
    alloc: Global,
    body: &[syntax::Stmt],
    scope: &ClassScope,
    locals: &mut Names<Local>,
    blocks: &mut Vec<Block>,
) -> Result<u32, AllocError>
    requires laid { IsLaid scope.now }
    ensures number { IfOk result (λ number. number
        ≡ length blocks.old.items + all_count (text.statements_of_list body.now)) }
    ensures blocks { OnOk result (bodies_of blocks.new.items ≡ with_bodies scope.now.class
        (all_inner (text.statements_of_list body.now) scope.now locals.old (length blocks.old.items)
        ++ all_codes (text.statements_of_list body.now) scope.now locals.old (length blocks.old.items) ∷ [])
        (bodies_of blocks.old.items)) }
    ensures length { OnOk result (length blocks.new.items
        ≡ length blocks.old.items + (all_count (text.statements_of_list body.now) + 1)) }
    ensures locals { OnOk result (locals.new ≡ after_all (text.statements_of_list body.now) scope.now locals.old) }
{
    let statements = resolve_all(alloc, body, scope, locals, blocks)?;
    let number = add_block(scope.class, statements, blocks)?;
    Ok(number)
}

// The block of a branch's or a loop's body.
#[cycle(walk)]
fn resolve_body(
    alloc: Global,
    s: &syntax::Stmt,
    scope: &ClassScope,
    locals: &mut Names<Local>,
    blocks: &mut Vec<Block>,
) -> Result<u32, AllocError>
    requires laid { IsLaid scope.now }
    ensures number { IfOk result (λ number. number ≡ length blocks.old.items + count (text.statement_of s.now)) }
    ensures blocks { OnOk result (bodies_of blocks.new.items
        ≡ with_bodies scope.now.class (inner (text.statement_of s.now) scope.now locals.old (length blocks.old.items)
        ++ (code (text.statement_of s.now) scope.now locals.old (length blocks.old.items) ∷ []) ∷ [])
        (bodies_of blocks.old.items)) }
    ensures length { OnOk result (length blocks.new.items
        ≡ length blocks.old.items + (count (text.statement_of s.now) + 1)) }
    ensures locals { OnOk result (locals.new ≡ locals.old) }
{
    let mark = locals.len();
    let one = resolve_statement(alloc, s, scope, locals, blocks)?;
    locals.forget(mark);
    let number = add_single(alloc, scope.class, one, blocks)?;
    Ok(number)
}

#[cycle(walk)]
fn resolve_if(
    alloc: Global,
    branches: &[syntax::Branch],
    otherwise: &Option<Box<syntax::Stmt>>,
    scope: &ClassScope,
    locals: &mut Names<Local>,
    blocks: &mut Vec<Block>,
) -> Result<Stmt, AllocError>
    requires laid { IsLaid scope.now }
    ensures code { IfOk result (λ made. tree.code_of made ≡ codes.If
        (branch_codes (text.branches_of_list branches.now (text.else_of_option otherwise.now)) scope.now locals.old
        (length blocks.old.items))) }
    ensures blocks { OnOk result (bodies_of blocks.new.items ≡ with_bodies scope.now.class
        (branch_inner (text.branches_of_list branches.now (text.else_of_option otherwise.now)) scope.now locals.old
        (length blocks.old.items)) (bodies_of blocks.old.items)) }
    ensures length { OnOk result (length blocks.new.items ≡ length blocks.old.items
        + branch_count (text.branches_of_list branches.now (text.else_of_option otherwise.now))) }
    ensures locals { OnOk result (locals.new ≡ locals.old) }
{
    let mut out = Vec::new(alloc);
    for branch in branches {
        let block = resolve_body(alloc, &branch.body, scope, locals, blocks)?;
        let test = resolve_expression(alloc, &branch.test, scope, locals)?;
        out.push(Branch {
            line: branch.line,
            test,
            block,
        })?;
    }
    match otherwise {
        None => Ok(Stmt::If {
            branches: out,
            otherwise: None,
        }),
        Some(body) => {
            let block = resolve_body(alloc, body, scope, locals, blocks)?;
            Ok(Stmt::If {
                branches: out,
                otherwise: Some(block),
            })
        }
    }
}

/// What statements become one after another, after these locals, where their blocks stand after
/// those that there are. Each level of the text's nesting, of which there are at most 64, is two calls
/// deep.
#[cycle(walk)]
pub fn resolve_all(
    alloc: Global,
    all: &[syntax::Stmt],
    scope: &ClassScope,
    locals: &mut Names<Local>,
    blocks: &mut Vec<Block>,
) -> Result<Vec<Stmt>, AllocError>
    requires laid { IsLaid scope.now }
    ensures codes { IfOk result (λ made. tree.code_list made.items
        ≡ all_codes (text.statements_of_list all.now) scope.now locals.old (length blocks.old.items)) }
    ensures blocks { OnOk result (bodies_of blocks.new.items ≡ with_bodies scope.now.class
        (all_inner (text.statements_of_list all.now) scope.now locals.old (length blocks.old.items))
        (bodies_of blocks.old.items)) }
    ensures length { OnOk result (length blocks.new.items
        ≡ length blocks.old.items + all_count (text.statements_of_list all.now)) }
    ensures locals { OnOk result (locals.new ≡ after_all (text.statements_of_list all.now) scope.now locals.old) }
{
    let mut out = Vec::new(alloc);
    for s in all {
        let one = resolve_statement(alloc, s, scope, locals, blocks)?;
        out.push(one)?;
    }
    Ok(out)
}
