ghost use Rattle.std.specs.Prelude.{◌≡◌, ◌∷◌, [], IfOk};
ghost use Rattle.trick_body_symbols.specs.Symbols.{number_of};
ghost use Rattle.trick_grammar.specs.Gives.{Gives, class_of, text_of};
ghost use Rattle.trick_grammar.specs.Reading.{read_token, with_hint};

use crate::symbol::{Symbol, Token};
use std::alloc::{AllocError, Global};
use trick_base::{Items, Word};
use trick_grammar::{GrammarStop, Refusal, hinted, take_one_of, text_of};

/// What a reader knows beside the tokens: the text that they were cut from, how many items a list may
/// have, and the names of the loops round the statement, the innermost first.
#[derive(Clone, Copy)]
pub struct Source<'t> {
    pub text: &'t [u8],
    pub limit: usize,
    pub scope: &'t [Token],
}

impl<'t> Source<'t> {
    /// The same, with no loop round it.
    pub fn outside(self) -> Source<'t>
        ensures text { result.text.now ≡ self.entry.text.now }
        ensures limit { result.limit ≡ self.entry.limit }
        ensures scope { result.scope.now ≡ [] }
    {
        Source {
            text: self.text,
            limit: self.limit,
            scope: &[],
        }
    }
}

/// The bytes of a token of the text.
pub fn name_of(alloc: Global, text: &[u8], token: &Token) -> Result<Word, AllocError>
    ensures { IfOk result (λ name. name ≡ text_of text.now token.now) }
{
    Ok(Items::from_vec(text_of(text, token).to_vec(alloc)?))
}

/// The bytes of a token of the text, beside a value that is kept meanwhile. Where memory runs out the value
/// is let go here, so that no caller has to.
pub fn name_beside<T: Drop>(
    alloc: Global,
    text: &[u8],
    token: &Token,
    kept: T,
) -> Result<(Word, T), AllocError>
    ensures { IfOk result (λ x. (x.0 ≡ text_of text.now token.now) × (x.1 ≡ kept)) }
{
    let name = name_of(alloc, text, token)?;
    Ok((name, kept))
}

/// The tokens in scope after the name of a loop, the innermost first.
pub fn within(alloc: Global, name: &Token, scope: &[Token]) -> Result<Vec<Token>, AllocError>
    ensures { IfOk result (λ inner. inner.items ≡ name.now ∷ scope.now) }
{
    let mut inner = Vec::new(alloc);
    inner.push(*name)?;
    inner.extend_from_slice(scope)?;
    Ok(inner)
}

/// A token of these symbols; another one is refused for this reason.
pub fn take_hinted<'a>(
    rest: &'a [Token],
    symbols: &[Symbol],
    reason: Refusal,
) -> Result<(&'a Token, &'a [Token]), GrammarStop<'a, Symbol>>
    ensures { Gives (λ x. (x.0.now, x.1.now)) result
        (with_hint reason (read_token number_of class_of symbols.now rest.now)) }
{
    match take_one_of(rest, symbols) {
        Ok(taken) => Ok(taken),
        Err(GrammarStop::Memory) => Err(GrammarStop::Memory),
        Err(GrammarStop::At(kind, at)) => Err(GrammarStop::At(hinted(reason, kind), at)),
    }
}
