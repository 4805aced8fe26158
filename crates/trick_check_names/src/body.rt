ghost use Rattle.std.specs.Prelude.{◌≡◌, ◌∷◌, [], OnOk};
ghost use Rattle.trick_lang.specs.SyntaxTree.{Declare, For};
ghost use Rattle.trick_lang.specs.declared.bound.Bound.TheVariants.{Below};
ghost use Rattle.trick_lang.specs.Syntax.{branches_of_list, change_of, choices_of_list, else_of_option, expression_of, first_value_of, links_of_list, parts_of_list, path_of, statement_of, statements_of_list, written_of};
ghost use Rattle.trick_check_names.specs.BodyMistakes.{after, after_all, all_mistakes, astray, branch_mistakes, call_mistakes, change_mistakes, choice_mistakes, declared, ends, expression_mistakes, line_of, link_mistakes, part_mistakes, path_mistakes, scalar_of, statement_mistakes, strays, type_mistakes, unless_fixed};
ghost use Rattle.trick_check_names.specs.Mistakes.{noted};
ghost use Rattle.trick_check_names.specs.Places.{followed, own_member};

use crate::follow::{State, element, fixed, follow, literal, member, start};
use crate::found::{Found, declare};
use crate::scope::FileScope;
use crate::tables::Local;
use crate::{Base, Global, Lengths, Member, Names};
use std::alloc::AllocError;
use trick_base::Word;
use trick_lang::Scalar;
use trick_lang::syntax::{Branch, Change, Choice, Expr, Link, Part, Path, Stmt, TypeName};

// ---- steps of a path

// The line of a literal.
fn literal_line(e: &Expr) -> u32
    ensures { result ≡ line_of (expression_of e.now) }
{
    match e {
        Expr::Whole { line, number: _ } => *line,
        Expr::Truth { line, value: _ } => *line,
        _ => 0,
    }
}

// Notes a name that is not there.
fn note_astray(line: u32, state: State, found: &mut Found)
    ensures { found.new ≡ noted (astray line state) found.old }
{
    match state {
        State::Astray => found.note_unknown(line),
        _ => {}
    }
}

// Notes a step that leads from a place to what is not there.
fn note_strays(line: u32, before: State, state: State, found: &mut Found)
    ensures { found.new ≡ noted (strays line before state) found.old }
{
    match before {
        State::Stands(_) => note_astray(line, state, found),
        _ => {}
    }
}

// Notes that a place is no scalar, or cannot be assigned.
fn note_end(line: u32, fixed: bool, state: State, found: &mut Found)
    ensures { found.new ≡ noted (ends line (unless_fixed fixed state)) found.old }
{
    match state {
        State::Stands(shape) => {
            if fixed {
                found.note_not_scalar(line);
                return;
            }
            match (shape.lengths, shape.base) {
                (Lengths::Plain, Base::Single(_)) => {}
                _ => found.note_not_scalar(line),
            }
        }
        State::Astray => {}
        State::Misfit => found.note_not_scalar(line),
    }
}

// ---- expressions

// Each level of the text's nesting, of which there are at most 64, is one or two calls deep.
#[cycle(look)]
fn look_expression(e: &Expr, scope: &FileScope, locals: &Names<Local>, found: &mut Found)
    ensures { found.new ≡ noted (expression_mistakes (expression_of e.now) scope.now locals.now) found.old }
{
    match e {
        Expr::Whole { line: _, number: _ } => {}
        Expr::Truth { line: _, value: _ } => {}
        Expr::Named(path) => look_path(path, false, scope, locals, found),
        Expr::Prefixed(_, operand) => look_expression(operand, scope, locals, found),
        Expr::Chain(first, links) => {
            look_expression(first, scope, locals, found);
            look_links(links, scope, locals, found);
        }
        Expr::Choose(choices, last) => look_choices(choices, last, scope, locals, found),
    }
}

#[cycle(look)]
fn look_links(links: &[Link], scope: &FileScope, locals: &Names<Local>, found: &mut Found)
    ensures { found.new ≡ noted (link_mistakes (links_of_list links.now) scope.now locals.now) found.old }
{
    for link in links {
        look_expression(&link.operand, scope, locals, found);
    }
}

#[cycle(look)]
fn look_choices(
    choices: &[Choice],
    last: &Expr,
    scope: &FileScope,
    locals: &Names<Local>,
    found: &mut Found,
)
    ensures { found.new ≡ noted
        (choice_mistakes (choices_of_list choices.now (expression_of last.now)) scope.now locals.now) found.old }
{
    for choice in choices {
        look_expression(&choice.test, scope, locals, found);
        look_expression(&choice.value, scope, locals, found);
    }
    look_expression(last, scope, locals, found);
}

#[cycle(look)]
fn look_path(
    path: &Path,
    assigned: bool,
    scope: &FileScope,
    locals: &Names<Local>,
    found: &mut Found,
)
    ensures { found.new ≡ noted (path_mistakes (path_of path.now) assigned scope.now locals.now) found.old }
{
    let from = start(&path.name, scope, locals);
    let bound = assigned && fixed(&path.name, scope, locals);
    let parts = path.parts.as_slice();
    note_end(path.line, bound, follow(parts, scope, from), found);
    note_astray(path.line, from, found);
    look_parts(parts, from, scope, locals, found);
}

#[cycle(look)]
fn look_parts(
    parts: &[Part],
    from: State,
    scope: &FileScope,
    locals: &Names<Local>,
    found: &mut Found,
)
    ensures { found.new ≡ noted (part_mistakes (parts_of_list parts.now) scope.now locals.now from) found.old }
{
    let mut state = from;
    for part in parts {
        state = look_part(part, state, scope, locals, found);
    }
}

// One part; and where it leads.
#[cycle(look)]
fn look_part(
    part: &Part,
    from: State,
    scope: &FileScope,
    locals: &Names<Local>,
    found: &mut Found,
) -> State
    ensures next { result ≡ followed (parts_of_list (part.now ∷ [])) scope.now from }
    ensures found { found.new ≡ noted
        (part_mistakes (parts_of_list (part.now ∷ [])) scope.now locals.now from) found.old }
{
    match part {
        Part::Member { line, name } => {
            let next = member(name, scope, from);
            note_strays(*line, from, next, found);
            next
        }
        Part::Index(e) => {
            look_expression(e, scope, locals, found);
            let next = element(literal(e), from);
            note_strays(literal_line(e), from, next, found);
            next
        }
    }
}

// ---- statements

fn look_change(change: &Change, scope: &FileScope, locals: &Names<Local>, found: &mut Found)
    ensures { found.new ≡ noted (change_mistakes (change_of change.now) scope.now locals.now) found.old }
{
    match change {
        Change::Set(e) => look_expression(e, scope, locals, found),
        Change::Update(_, e) => look_expression(e, scope, locals, found),
        Change::Increase => {}
        Change::Decrease => {}
    }
}

fn look_type(written: &TypeName, scope: &FileScope, found: &mut Found)
    ensures { found.new ≡ noted (type_mistakes (written_of written.now) scope.now) found.old }
{
    match written {
        TypeName::Basic(_) => {}
        TypeName::Custom { line, name } => match scope.names.meaning(name) {
            Some(Global::Enum) => {}
            Some(Global::Struct(_)) => found.note_not_scalar(*line),
            Some(Global::Class(_)) => found.note_not_scalar(*line),
            _ => found.note_unknown(*line),
        },
    }
}

// The scalar of a local.
fn scalar(written: &TypeName) -> Scalar
    ensures { result ≡ scalar_of (written_of written.now) }
{
    match written {
        TypeName::Basic(scalar) => *scalar,
        TypeName::Custom { line: _, name: _ } => Scalar::Int,
    }
}

fn look_declare(
    written: &TypeName,
    name: &Word,
    value: &Option<Expr>,
    scope: &FileScope,
    locals: &mut Names<Local>,
    found: &mut Found,
) -> Result<(), AllocError>
    ensures found { OnOk result (found.new ≡ noted (statement_mistakes
        (Declare 0 (written_of written.now) name.now (first_value_of value.now)) scope.now locals.old) found.old) }
    ensures locals { OnOk result (locals.new ≡ declared (written_of written.now) name.now locals.old) }
{
    look_type(written, scope, found);
    let local = Local {
        scalar: scalar(written),
        is_loop: false,
    };
    declare(name, local, locals, found)?;
    if let Some(e) = value {
        look_expression(e, scope, locals, found);
    }
    Ok(())
}

/// Notes a call of what is no method of the class.
pub fn look_call(line: u32, name: &Word, scope: &FileScope, found: &mut Found)
    ensures { found.new ≡ noted (call_mistakes line (own_member name.now scope.now)) found.old }
{
    match scope.own(name) {
        Some(Member::Method(_)) => {}
        _ => found.note_unknown(line),
    }
}

#[cycle(walk)]
fn look_statement(
    s: &Stmt,
    scope: &FileScope,
    locals: &mut Names<Local>,
    found: &mut Found,
) -> Result<(), AllocError>
    ensures found { OnOk result (found.new ≡ noted
        (statement_mistakes (statement_of s.now) scope.now locals.old) found.old) }
    ensures locals { OnOk result (locals.new ≡ after (statement_of s.now) locals.old) }
{
    match s {
        Stmt::Empty => Ok(()),
        Stmt::Block(all) => {
            let mark = locals.len();
            look_all(all, scope, locals, found)?;
            locals.forget(mark);
            Ok(())
        }
        Stmt::Declare {
            line: _,
            written,
            name,
            value,
        } => look_declare(written, name, value, scope, locals, found),
        Stmt::Assign {
            line: _,
            path,
            change,
        } => {
            look_path(path, true, scope, locals, found);
            look_change(change, scope, locals, found);
            Ok(())
        }
        Stmt::If {
            branches,
            otherwise,
        } => look_branches(branches, otherwise, scope, locals, found),
        Stmt::For {
            name,
            from: _,
            bound: _,
            body,
        } => look_for(name, body, scope, locals, found),
        Stmt::Call { line, name } => {
            look_call(*line, name, scope, found);
            Ok(())
        }
    }
}

#[cycle(walk)]
fn look_for(
    name: &Word,
    body: &Stmt,
    scope: &FileScope,
    locals: &mut Names<Local>,
    found: &mut Found,
) -> Result<(), AllocError>
    ensures found { OnOk result (found.new ≡ noted
        (statement_mistakes (For name.now 0 (Below 0) (statement_of body.now)) scope.now locals.old) found.old) }
    ensures locals { OnOk result (locals.new ≡ locals.old) }
{
    let mark = locals.len();
    let local = Local {
        scalar: Scalar::Long,
        is_loop: true,
    };
    declare(name, local, locals, found)?;
    look_statement(body, scope, locals, found)?;
    locals.forget(mark);
    Ok(())
}

// A statement whose locals end with it.
#[cycle(walk)]
fn look_alone(
    s: &Stmt,
    scope: &FileScope,
    locals: &mut Names<Local>,
    found: &mut Found,
) -> Result<(), AllocError>
    ensures found { OnOk result (found.new ≡ noted
        (statement_mistakes (statement_of s.now) scope.now locals.old) found.old) }
    ensures locals { OnOk result (locals.new ≡ locals.old) }
{
    let mark = locals.len();
    look_statement(s, scope, locals, found)?;
    locals.forget(mark);
    Ok(())
}

#[cycle(walk)]
fn look_branches(
    branches: &[Branch],
    otherwise: &Option<Box<Stmt>>,
    scope: &FileScope,
    locals: &mut Names<Local>,
    found: &mut Found,
) -> Result<(), AllocError>
    ensures found { OnOk result (found.new ≡ noted
        (branch_mistakes (branches_of_list branches.now (else_of_option otherwise.now)) scope.now locals.old)
        found.old) }
    ensures locals { OnOk result (locals.new ≡ locals.old) }
{
    for branch in branches {
        look_expression(&branch.test, scope, locals, found);
        look_alone(&branch.body, scope, locals, found)?;
    }
    match otherwise {
        Some(body) => look_alone(body, scope, locals, found),
        None => Ok(()),
    }
}

/// Notes the mistakes of the statements of a block. Each level of the text's nesting, of which there
/// are at most 64, is two calls deep.
#[cycle(walk)]
pub fn look_all(
    all: &[Stmt],
    scope: &FileScope,
    locals: &mut Names<Local>,
    found: &mut Found,
) -> Result<(), AllocError>
    ensures found { OnOk result (found.new ≡ noted
        (all_mistakes (statements_of_list all.now) scope.now locals.old) found.old) }
    ensures locals { OnOk result (locals.new ≡ after_all (statements_of_list all.now) locals.old) }
{
    for s in all {
        look_statement(s, scope, locals, found)?;
    }
    Ok(())
}
