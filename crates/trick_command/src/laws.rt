//! Laws of feeds. A function that calls one of them may rest on what it says; the call itself does
//! nothing.

ghost use Rattle.trick_command.specs.Laws.{CutsDoNotMatter, WaitsForLines};

/// To push two pieces one after the other is to push their bytes at once.
pub fn cuts_do_not_matter()
    ensures { CutsDoNotMatter }
{}

/// The lines that wait in a feed to which these bytes came, and from which none was pulled, are the
/// lines of a client with these bytes.
pub fn lines_are_those_of_the_bytes()
    ensures { WaitsForLines }
{}
