//! Laws of conditions. A function that calls one of them may rest on what it says; the call itself
//! does nothing.

ghost use Rattle.trick_plan_conditions.specs.Laws.{PlainConditionsHold};

/// A plain condition cannot fault, and reads cells alone that names are known for.
pub fn plain_conditions_hold()
    ensures { PlainConditionsHold }
{}
