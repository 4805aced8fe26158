//! The places of what is added.

ghost use Rattle.std.specs.Prelude.{◌≡◌, IfOk};
ghost use Rattle.trick_plan_ending.specs.Added.{places_of};

use std::alloc::{AllocError, Global};
use trick_check_names::Names;

// The places that names stand for, in the order in which the names became known.
pub(crate) fn places(alloc: Global, names: &Names<usize>) -> Result<Vec<usize>, AllocError>
    ensures { IfOk result (λ places. places.items ≡ places_of names.now) }
{
    let mut places = Vec::new(alloc);
    for at in 0..names.len() {
        let (_, place) = names.entry(at);
        places.push(place)?;
    }
    Ok(places)
}
