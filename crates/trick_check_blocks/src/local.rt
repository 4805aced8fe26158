//! Locals of bodies, with their slots.

ghost use Rattle.std.specs.Prelude.{◌≡◌, OnOk, IfOk, length};
ghost use Rattle.trick_check_blocks.specs.Codes.{declared, loop_in, loop_slot, new_slot, scalar_of, slot_behind};
ghost use Rattle.trick_lang.specs.Locals.{bound_number};
ghost use Rattle.trick_lang.specs.Syntax.{written_of};

use crate::scope::ClassScope;
use crate::start::Local;
use std::alloc::AllocError;
use trick_base::Word;
use trick_check_names::Names;
use trick_lang::syntax::TypeName;
use trick_lang::{BOUND_LIMIT, Bound, Scalar};

// So many slots and locals fit the numbers of slots.
const SLOT_LIMIT: usize = 1_000_000_000;

// The slot after those of the known locals.
fn slot_after(scope: &ClassScope, locals: &Names<Local>) -> Result<u32, AllocError>
    ensures { IfOk result (λ slot. slot ≡ slot_behind scope.now locals.now) }
{
    let known = locals.len();
    if known > SLOT_LIMIT || scope.slots > 1_000_000_000 {
        return Err(AllocError);
    }
    Ok(scope.slots + known as u32)
}

/// The scalar of a local.
pub fn scalar(written: &TypeName) -> Scalar
    ensures { result ≡ scalar_of (written_of written.now) }
{
    match written {
        TypeName::Basic(scalar) => *scalar,
        TypeName::Custom { line: _, name: _ } => Scalar::Int,
    }
}

/// Makes a local known, and gives its slot, or nothing where its name was known.
pub fn declare(
    written: &TypeName,
    name: &Word,
    scope: &ClassScope,
    locals: &mut Names<Local>,
) -> Result<Option<u32>, AllocError>
    ensures slot { IfOk result (λ slot. slot ≡ new_slot name.now scope.now locals.old) }
    ensures locals { OnOk result (locals.new ≡ declared (written_of written.now) name.now scope.now locals.old) }
{
    let slot = slot_after(scope, locals)?;
    let local = Local {
        slot,
        scalar: scalar(written),
        is_loop: false,
    };
    let was_known = locals.add(name, local)?;
    Ok(if was_known { None } else { Some(slot) })
}

fn bound_of(bound: Bound) -> u32
    ensures { result ≡ bound_number bound }
{
    match bound {
        Bound::Below(number) => number,
        Bound::UpTo(number) => number,
    }
}

/// Makes the variable of a loop known, and gives its slot, or nothing where its name was known or the
/// bound is above 1,000,000.
pub fn enter_loop(
    name: &Word,
    bound: Bound,
    scope: &ClassScope,
    locals: &mut Names<Local>,
) -> Result<Option<u32>, AllocError>
    ensures slot { IfOk result (λ slot. slot ≡ loop_slot name.now bound scope.now locals.old) }
    ensures locals { OnOk result (locals.new ≡ loop_in name.now scope.now locals.old) }
{
    let slot = slot_after(scope, locals)?;
    let local = Local {
        slot,
        scalar: Scalar::Long,
        is_loop: true,
    };
    let was_known = locals.add(name, local)?;
    if u64::from(bound_of(bound)) > BOUND_LIMIT || was_known {
        return Ok(None);
    }
    Ok(Some(slot))
}
