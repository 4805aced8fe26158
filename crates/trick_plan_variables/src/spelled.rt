//! What is known of a declaration that a text has.

ghost use Rattle.std.specs.Prelude.{IsTrue};
ghost use Rattle.trick_lang.specs.Names.{is_spelled};

use crate::Declaration;

/// A declaration that a text has: its name is of letters, digits and `_`, with no digit first.
#[derive(Debug, Drop)]
pub struct SpelledDeclaration {
    pub declaration: Declaration,
    pub ghost spelled: { IsTrue (is_spelled declaration.name) },
}
