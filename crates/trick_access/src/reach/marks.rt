ghost use Rattle.std.specs.Prelude.{◌≡◌};
ghost use Rattle.trick_access.specs.Reached.{all_runs, branch_runs, code_runs, with_marks};
ghost use Rattle.trick_lang.specs.TreeOf.{branches_of, code_list, code_of, else_of};

use crate::reach::pages::Marks;
use trick_lang::{Branch, Stmt};

// Marks the blocks of the branches of an `if`.
fn mark_branches(branches: &[Branch], otherwise: Option<u32>, marks: &mut Marks)
    ensures { marks.new ≡ with_marks (branch_runs (branches_of branches.now (else_of otherwise))) marks.old }
{
    for branch in branches {
        marks.mark(branch.block as usize);
    }
    if let Some(block) = otherwise {
        marks.mark(block as usize);
    }
}

// Marks the blocks that a statement runs.
fn mark_statement(statement: &Stmt, marks: &mut Marks)
    ensures { marks.new ≡ with_marks (code_runs (code_of statement.now)) marks.old }
{
    match statement {
        Stmt::Empty | Stmt::Declare { .. } | Stmt::SetLocal { .. } | Stmt::Assign { .. } => {}
        Stmt::If {
            branches,
            otherwise,
        } => mark_branches(branches, *otherwise, marks),
        Stmt::For { block, .. } => marks.mark(*block as usize),
        Stmt::Run(block) => marks.mark(*block as usize),
    }
}

// Marks the blocks that statements run.
pub fn mark_statements(statements: &[Stmt], marks: &mut Marks)
    ensures { marks.new ≡ with_marks (all_runs (code_list statements.now)) marks.old }
{
    for statement in statements {
        mark_statement(statement, marks);
    }
}
