ghost use Rattle.std.specs.Prelude.{◌≡◌};
ghost use Rattle.trick_check_blocks.specs.Places.{named};

use crate::scope::ClassScope;
use crate::spot::Spot;
use trick_base::Word;
use trick_check_names::{Base, Dims, Extent, Names, Site};
use trick_lang::Scalar;

/// A local variable that is known at a place of a body.
#[derive(Clone, Copy)]
pub struct Local {
    pub slot: u32,
    pub scalar: Scalar,
    /// Whether it is the variable of a loop, which cannot be assigned.
    pub is_loop: bool,
}

/// What the first name of a path stands for.
#[derive(Clone, Copy)]
pub enum Meaning {
    Local(Local),
    /// An item of an enum, with its value.
    Number(i32),
    /// A variable of the class, or an object.
    Stands(Spot),
    Nothing,
}

/// What a name stands for, where these locals are known.
pub fn stands_for(name: &Word, scope: &ClassScope, locals: &Names<Local>) -> Meaning
    ensures { result ≡ named name.now scope.now locals.now }
{
    if let Some(local) = locals.meaning(name) {
        return Meaning::Local(local);
    }
    if let Some(field) = scope.layout.field(scope.class as usize, name) {
        return Meaning::Stands(Spot {
            own: true,
            first: field.offset,
            loose: None,
            extent: field.extent,
        });
    }
    match scope.layout.site(name) {
        Some(Site::Item(value)) => Meaning::Number(value),
        Some(Site::Object { first, class }) => Meaning::Stands(Spot {
            own: false,
            first,
            loose: None,
            extent: Extent {
                dims: Dims::Plain,
                base: Base::Group(class),
            },
        }),
        None => Meaning::Nothing,
    }
}
