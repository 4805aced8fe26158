//! Laws of what resolving keeps, for every file, body, memory and state. A function that calls one of these laws may
//! rest on what it says; the call itself does nothing.

ghost use Rattle.trick_check_meaning_kept.specs.Kept.{ExpressionsKeep, StatementsKeep, TablesKeep};

use trick_check_bodies::laws::{object_law, place_law};
use trick_lang::laws::wrap_law;

/// What a file declares is the same by names and by cells.
pub fn tables_keep()
    ensures { TablesKeep }
{}

/// An expression has the value that its text means.
pub fn expressions_keep()
    ensures { ExpressionsKeep }
{
    wrap_law();
    place_law();
    object_law();
}

/// Statements end in the state that their text means, or at the same fault.
pub fn statements_keep()
    ensures { StatementsKeep }
{
    wrap_law();
    place_law();
    object_law();
}
