//! Laws of declarations. A function that calls one of them may rest on what it says; the call itself
//! does nothing.

ghost use Rattle.trick_plan_variables.specs.Laws.{DeclarationsAreExact, DeclaresOne};

/// A text declares one thing.
pub fn declares_one()
    ensures { DeclaresOne }
{
    trick_text::laws::one_list();
}

/// Reading gives the one declaration of a text, and else the first token with which none goes on.
pub fn declarations_are_exact()
    ensures { DeclarationsAreExact }
{}
