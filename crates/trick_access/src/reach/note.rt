ghost use Rattle.std.specs.Prelude.{◌≡◌};
ghost use Rattle.trick_lang.specs.Access.{branch_reads, change_reads, choice_reads, code_reads, code_writes, first_reads, index_reads, link_reads, target_reads, term_reads};
ghost use Rattle.trick_access.specs.Reached.{all_cells, code_cells, no_cells, noted};
ghost use Rattle.trick_lang.specs.TreeOf.{branches_of, change_of, choices_of_list, code_list, code_of, else_of, first_value_of, links_of_list, spot_of, term_of};

use crate::reach::ends::Ends;
use crate::reach::way::Way;
use trick_lang::{Branch, Change, Choice, Expr, Link, Place, Stmt};

// Notes the cells that an expression reads. It goes as deep as the text nests.
#[cycle(note)]
fn note_expression(expression: &Expr, base: u32, ends: &mut Ends)
    ensures { ends.new ≡ noted (term_reads (term_of expression.now) base) ends.old }
{
    match expression {
        Expr::Number(_) | Expr::Local(_) => {}
        Expr::Cell(place) => {
            ends.note(place, base);
            note_indexes(place, base, ends);
        }
        Expr::Prefixed(_, operand) => note_expression(operand, base, ends),
        Expr::Chain(first, links) => {
            note_expression(first, base, ends);
            note_links(links, base, ends);
        }
        Expr::Choose(choices, last) => note_choices(choices, last, base, ends),
    }
}

#[cycle(note)]
fn note_links(links: &[Link], base: u32, ends: &mut Ends)
    ensures { ends.new ≡ noted (link_reads (links_of_list links.now) base) ends.old }
{
    for link in links {
        note_expression(&link.operand, base, ends);
    }
}

#[cycle(note)]
fn note_choices(choices: &[Choice], last: &Expr, base: u32, ends: &mut Ends)
    ensures { ends.new ≡ noted (choice_reads (choices_of_list choices.now (term_of last.now)) base) ends.old }
{
    for choice in choices {
        note_expression(&choice.test, base, ends);
        note_expression(&choice.value, base, ends);
    }
    note_expression(last, base, ends);
}

// Notes the cells that the computed indexes of a place read.
#[cycle(note)]
fn note_indexes(place: &Place, base: u32, ends: &mut Ends)
    ensures { ends.new ≡ noted (index_reads (spot_of place.now) base) ends.old }
{
    for index in &place.indexes {
        note_expression(&index.at, base, ends);
    }
}

// Notes the cells that the right side of an assignment reads.
fn note_change(change: &Change, base: u32, ends: &mut Ends)
    ensures { ends.new ≡ noted (change_reads (change_of change.now) base) ends.old }
{
    match change {
        Change::Set(value) => note_expression(value, base, ends),
        Change::Update(_, value) => note_expression(value, base, ends),
        Change::Increase | Change::Decrease => {}
    }
}

// Notes the cells of a place that is changed by another operator than `=`.
fn note_target(place: &Place, change: &Change, base: u32, ends: &mut Ends)
    ensures { ends.new ≡ noted (target_reads (spot_of place.now) (change_of change.now) base) ends.old }
{
    match change {
        Change::Set(_) => {}
        Change::Update(_, _) => ends.note(place, base),
        Change::Increase => ends.note(place, base),
        Change::Decrease => ends.note(place, base),
    }
}

fn note_first(value: &Option<Expr>, base: u32, ends: &mut Ends)
    ensures { ends.new ≡ noted (first_reads (first_value_of value.now) base) ends.old }
{
    if let Some(value) = value {
        note_expression(value, base, ends);
    }
}

// Notes the cells that the tests of an `if` read.
fn note_tests(branches: &[Branch], otherwise: Option<u32>, base: u32, ends: &mut Ends)
    ensures { ends.new ≡ noted (branch_reads (branches_of branches.now (else_of otherwise)) base no_cells) ends.old }
{
    for branch in branches {
        note_expression(&branch.test, base, ends);
    }
}

// Notes the cells that a statement reads itself.
fn note_reads(statement: &Stmt, base: u32, ends: &mut Ends)
    ensures { ends.new ≡ noted (code_reads (code_of statement.now) base no_cells) ends.old }
{
    match statement {
        Stmt::Empty | Stmt::For { .. } | Stmt::Run(_) => {}
        Stmt::Declare { value, .. } => note_first(value, base, ends),
        Stmt::SetLocal { change, .. } => note_change(change, base, ends),
        Stmt::Assign { place, change, .. } => {
            note_indexes(place, base, ends);
            note_target(place, change, base, ends);
            note_change(change, base, ends);
        }
        Stmt::If {
            branches,
            otherwise,
        } => note_tests(branches, *otherwise, base, ends),
    }
}

// Notes the cells that a statement writes itself.
fn note_writes(statement: &Stmt, base: u32, ends: &mut Ends)
    ensures { ends.new ≡ noted (code_writes (code_of statement.now) base no_cells) ends.old }
{
    match statement {
        Stmt::Assign { place, .. } => ends.note(place, base),
        Stmt::If { .. } => {}
        Stmt::Empty
        | Stmt::Declare { .. }
        | Stmt::SetLocal { .. }
        | Stmt::For { .. }
        | Stmt::Run(_) => {}
    }
}

fn note_statement(way: Way, statement: &Stmt, base: u32, ends: &mut Ends)
    ensures { ends.new ≡ noted (code_cells way (code_of statement.now) base no_cells) ends.old }
{
    match way {
        Way::Reads => note_reads(statement, base, ends),
        Way::Writes => note_writes(statement, base, ends),
    }
}

// Notes the cells of statements, without those of the blocks that they run.
pub fn note_statements(way: Way, statements: &[Stmt], base: u32, ends: &mut Ends)
    ensures { ends.new ≡ noted (all_cells way (code_list statements.now) base no_cells) ends.old }
{
    for statement in statements {
        note_statement(way, statement, base, ends);
    }
}
