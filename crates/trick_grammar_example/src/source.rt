ghost use Rattle.std.specs.Prelude.{◌≡◌, ◌∷◌, IfOk};

use crate::word::Token;
use std::alloc::{AllocError, Global};

/// What a reader knows beside the tokens: the text that they were cut from, how many items a list may
/// have, and the names of the loops round the statement, the innermost first.
#[derive(Clone, Copy)]
pub struct Source<'t> {
    pub text: &'t [u8],
    pub limit: usize,
    pub scope: &'t [Token],
}

/// The tokens in scope after the name of a loop, the innermost first.
pub fn within(alloc: Global, name: &Token, scope: &[Token]) -> Result<Vec<Token>, AllocError>
    ensures { IfOk result (λ inner. inner.items ≡ name.now ∷ scope.now) }
{
    let mut inner = Vec::new(alloc);
    inner.push(*name)?;
    inner.extend_from_slice(scope)?;
    Ok(inner)
}
