ghost use Rattle.std.specs.Prelude.{◌≡◌};
ghost use Rattle.trick_lang.specs.Syntax.{expression_of, parts_of_list};
ghost use Rattle.trick_check_names.specs.Places.{element_in, followed, global_state, in_array, is_fixed, is_fixed_global, literal_of, member_in, named, single, to_element, to_member};
ghost use Rattle.trick_check_names.specs.declared.follow.State.TheVariants.{Stands};

use crate::scope::FileScope;
use crate::tables::Local;
use crate::{Base, Global, Lengths, Member, Names, Shape};
use trick_base::Word;
use trick_lang::Scalar;
use trick_lang::syntax::{Expr, Part};

/// How far a path has come: it stands at a place, it has named what is not there, or it has an index
/// where none may be, or none where one must be.
#[derive(Clone, Copy)]
pub enum State {
    Stands(Shape),
    Astray,
    Misfit,
}

fn single(scalar: Scalar) -> State
    ensures { result ≡ Stands (single scalar) }
{
    State::Stands(Shape {
        lengths: Lengths::Plain,
        base: Base::Single(scalar),
    })
}

fn global_start(global: Option<Global>) -> State
    ensures { result ≡ global_state global }
{
    match global {
        Some(Global::Item(_)) => single(Scalar::Int),
        Some(Global::Object(base)) => State::Stands(Shape {
            lengths: Lengths::Plain,
            base,
        }),
        _ => State::Astray,
    }
}

/// What the first name of a place stands for.
pub fn start(name: &Word, scope: &FileScope, locals: &Names<Local>) -> State
    ensures { result ≡ named name.now scope.now locals.now }
{
    if let Some(local) = locals.meaning(name) {
        return single(local.scalar);
    }
    match scope.own(name) {
        Some(Member::Variable(shape)) => State::Stands(shape),
        Some(Member::Method(_)) => global_start(scope.global(name)),
        None => global_start(scope.global(name)),
    }
}

fn is_item(global: Option<Global>) -> bool
    ensures { result ≡ is_fixed_global global }
{
    match global {
        Some(Global::Item(_)) => true,
        _ => false,
    }
}

/// Whether a name is that of an enum item or of a loop, which cannot be assigned.
pub fn fixed(name: &Word, scope: &FileScope, locals: &Names<Local>) -> bool
    ensures { result ≡ is_fixed name.now scope.now locals.now }
{
    if let Some(local) = locals.meaning(name) {
        return local.is_loop;
    }
    match scope.own(name) {
        Some(Member::Variable(_)) => false,
        Some(Member::Method(_)) => is_item(scope.global(name)),
        None => is_item(scope.global(name)),
    }
}

/// Where `.name` leads.
pub fn member(name: &Word, scope: &FileScope, state: State) -> State
    ensures { result ≡ to_member name.now scope.now state }
{
    match state {
        State::Stands(shape) => match (shape.lengths, shape.base) {
            (Lengths::Plain, Base::Group(group)) => match scope.member(group, name) {
                Some(Member::Variable(found)) => State::Stands(found),
                _ => State::Astray,
            },
            _ => State::Astray,
        },
        State::Astray => State::Astray,
        State::Misfit => State::Misfit,
    }
}

fn within(length: u64, literal: Option<u64>, inside: State) -> State
    ensures { result ≡ in_array length literal inside }
{
    match literal {
        None => inside,
        Some(k) => { if k < length { inside } else { State::Astray } }
    }
}

/// Where `[index]` leads, whose index may be a literal.
pub fn element(literal: Option<u64>, state: State) -> State
    ensures { result ≡ to_element literal state }
{
    match state {
        State::Stands(shape) => match shape.lengths {
            Lengths::Plain => State::Misfit,
            Lengths::One(n) => within(
                n,
                literal,
                State::Stands(Shape {
                    lengths: Lengths::Plain,
                    base: shape.base,
                }),
            ),
            Lengths::Two(m, n) => within(
                m,
                literal,
                State::Stands(Shape {
                    lengths: Lengths::One(n),
                    base: shape.base,
                }),
            ),
        },
        State::Astray => State::Astray,
        State::Misfit => State::Misfit,
    }
}

/// The number of a literal index.
pub fn literal(e: &Expr) -> Option<u64>
    ensures { result ≡ literal_of (expression_of e.now) }
{
    match e {
        Expr::Whole { line: _, number } => Some(*number),
        Expr::Truth { line: _, value } => Some(if *value { 1 } else { 0 }),
        _ => None,
    }
}

/// Where the parts of a path lead.
pub fn follow(parts: &[Part], scope: &FileScope, from: State) -> State
    ensures { result ≡ followed (parts_of_list parts.now) scope.now from }
{
    let mut state = from;
    for part in parts {
        state = match part {
            Part::Member { line: _, name } => member(name, scope, state),
            Part::Index(e) => element(literal(e), state),
        };
    }
    state
}
