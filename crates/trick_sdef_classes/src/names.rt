//! Names that may not be `trick`.

ghost use Rattle.std.specs.Prelude.{◌≡◌, []};
ghost use Rattle.trick_body_symbols.specs.Symbols.{number_of};
ghost use Rattle.trick_grammar.specs.Gives.{Gives, class_of};
ghost use Rattle.trick_grammar.specs.Reading.{read};
ghost use Rattle.trick_sdef_classes.specs.Members.{free_name};

use trick_body_symbols::{Symbol, Token};
use trick_grammar::{GrammarStop, Refusal, next_is, reason_at, take_one_of};

// The symbols of names other than `trick`.
pub const FREE_NAMES: [Symbol; 7] = [
    Symbol::Name,
    Symbol::UpperTrick,
    Symbol::SimObject,
    Symbol::Thread,
    Symbol::OtherThread,
    Symbol::Phase,
    Symbol::OtherPhase,
];

/// A NAME other than `trick`, which is not in the profile.
#[tactic(auto, unfolding(crate::specs::Members::free_name_body))]
pub fn take_free_name(rest: &[Token]) -> Result<(&Token, &[Token]), GrammarStop<Symbol>>
    ensures { Gives (λ x. (x.0.now, x.1.now)) result (read number_of class_of [] free_name rest.now) }
{
    if next_is(rest, Symbol::LowerTrick) {
        let reason = reason_at(rest, Refusal::NotInProfile, &[Symbol::LowerTrick]);
        return Err(GrammarStop::At(reason, rest));
    }
    take_one_of(rest, &FREE_NAMES)
}
