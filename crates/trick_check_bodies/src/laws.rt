//! Laws of places, for every file, body and index. A function that calls one of these laws may rest
//! on what it says; the call itself does nothing.

ghost use Rattle.trick_check_bodies.specs.Named.{LeadToTheirNames, ObjectsHoldNames, TablesTell};

/// Wherever a path may lead, its place is the cell with the path's text as its name.
pub fn place_law()
    ensures { LeadToTheirNames }
{}

/// A cell of an object has the object's name before that which it has in its class.
pub fn object_law()
    ensures { ObjectsHoldNames }
{}

/// Where all objects have at most 65,536 cells, the tables of a file tell where its cells are.
pub fn tables_law()
    ensures { TablesTell }
{}
