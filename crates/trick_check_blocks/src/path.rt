ghost use Rattle.std.specs.Prelude.{◌≡◌, ◌∷◌, [], Some, if◌then◌else◌};
ghost use Rattle.trick_check_blocks.specs.Places.{element_at, followed, literal_count, literal_of, to_index, to_member};
ghost use Rattle.trick_check_blocks.specs.Room.{Fits, IsLaid};
ghost use Rattle.trick_check_blocks.specs.Terms.{computed, offset_of, span_of, spot_with};
ghost use Rattle.trick_lang.specs.Syntax.{expression_of, parts_of_list};
ghost use Rattle.trick_lang.specs.TreeOf.{spot_of, steps_of_list};

use crate::scope::ClassScope;
use crate::spot::{Element, Loose, Spot, array_of, element_on, loosen, move_on};
use trick_base::Word;
use trick_check_names::{Base, Dims};
use trick_lang::syntax::{Expr, Part};
use trick_lang::{Index, Place};

// Where `.name` leads.
fn member(name: &Word, scope: &ClassScope, spot: Spot) -> Option<Spot>
    requires laid { IsLaid scope.now }
    requires fits { Fits scope.now (Some spot) }
    ensures { result ≡ to_member name.now scope.now (Some spot) }
{
    match (spot.extent.dims, spot.extent.base) {
        (Dims::Plain, Base::Group(group)) => match scope.layout.field(group, name) {
            Some(found) => Some(move_on(spot, found.offset, found.extent)),
            None => None,
        },
        _ => None,
    }
}

// Where `[index]` leads, whose index may be a literal.
fn index(literal: Option<u64>, scope: &ClassScope, spot: Spot) -> Option<Spot>
    requires laid { IsLaid scope.now }
    requires fits { Fits scope.now (Some spot) }
    ensures { result ≡ to_index literal (Some spot) }
{
    match array_of(Some(spot)) {
        None => None,
        Some(found) => match literal {
            None => Some(Spot {
                own: spot.own,
                first: spot.first,
                loose: loosen(found.dim.cells, spot.loose),
                extent: found.inner,
            }),
            Some(k) => {
                if k < found.dim.length as u64 {
                    Some(element_on(k as u32, found, spot))
                } else {
                    None
                }
            }
        },
    }
}

/// The number of a literal index.
pub fn literal(e: &Expr) -> Option<u64>
    ensures { result ≡ literal_of (expression_of e.now) }
{
    match e {
        Expr::Whole { line: _, number } => Some(*number),
        Expr::Truth { line: _, value } => Some(if *value { 1 } else { 0 }),
        _ => None,
    }
}

/// Where one part of a path leads.
pub fn step(part: &Part, scope: &ClassScope, at: Option<Spot>) -> Option<Spot>
    requires laid { IsLaid scope.now }
    requires fits { Fits scope.now at }
    ensures { result ≡ followed (parts_of_list (part.now ∷ [])) scope.now at }
{
    match at {
        None => None,
        Some(spot) => match part {
            Part::Member { line: _, name } => member(name, scope, spot),
            Part::Index(e) => index(literal(e), scope, spot),
        },
    }
}

/// Where the parts of a path lead.
pub fn follow(parts: &[Part], scope: &ClassScope, from: Spot) -> Option<Spot>
    requires laid { IsLaid scope.now }
    requires fits { Fits scope.now (Some from) }
    ensures { result ≡ followed (parts_of_list parts.now) scope.now (Some from) }
{
    let mut at = Some(from);
    for part in parts {
        at = step(part, scope, at);
    }
    at
}

// Whether a part is a literal index.
fn is_literal(part: &Part) -> bool
    ensures { literal_count (parts_of_list (part.now ∷ [])) ≡ (if result then 1 else 0) }
{
    match part {
        Part::Member { line: _, name: _ } => false,
        Part::Index(e) => literal(e).is_some(),
    }
}

/// How many indexes of a path are literals.
pub fn literals(parts: &[Part]) -> u64
    ensures { result ≡ literal_count (parts_of_list parts.now) }
{
    let mut count: u64 = 0;
    for part in parts {
        if is_literal(part) {
            count += 1;
        }
    }
    count
}

/// The array of an index that is no literal.
pub fn computed_array(literal: Option<u64>, at: Option<Spot>) -> Option<Element>
    ensures { result ≡ computed literal (element_at at) }
{
    match literal {
        Some(_) => None,
        None => array_of(at),
    }
}

fn span(loose: Option<Loose>) -> u32
    ensures { result ≡ span_of loose }
{
    match loose {
        None => 1,
        Some(known) => known.span,
    }
}

fn offset(loose: Option<Loose>) -> u32
    ensures { result ≡ offset_of loose }
{
    match loose {
        None => 0,
        Some(known) => known.offset,
    }
}

/// A place with so many literal indexes and with these computed ones.
pub fn place_at(at: Spot, literals: u64, indexes: Vec<Index>) -> Place
    ensures { spot_of result ≡ spot_with at literals (steps_of_list indexes.items) }
{
    Place {
        own: at.own,
        first: at.first,
        span: span(at.loose),
        offset: offset(at.loose),
        literals,
        indexes,
    }
}
