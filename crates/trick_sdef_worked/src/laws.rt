//! The worked texts. Each function is a promise, and does nothing.

ghost use Rattle.trick_sdef_worked.specs.Worked.{AreTold};
ghost use Rattle.trick_sdef_worked.specs.ReadBodies.{BodiesAreRead};
ghost use Rattle.trick_sdef_worked.specs.ReadFiles.{FilesAreRead};
ghost use Rattle.trick_sdef_worked.specs.RefusedBodies.{BodiesAreRefused};
ghost use Rattle.trick_sdef_worked.specs.RefusedFiles.{FilesAreRefused};

/// The worked texts of bodies are read, each as its tree: every operator, every form of a statement, and every
/// type.
pub fn worked_bodies_are_read()
    ensures { BodiesAreRead }
{}

/// The worked texts of methods are refused, each at its place and for its reason.
pub fn worked_bodies_are_refused()
    ensures { BodiesAreRefused }
{}

/// The worked simulation definitions are read, each as its tree: every production, every type, every class of jobs
/// and every form of times.
pub fn worked_files_are_read()
    ensures { FilesAreRead }
{}

/// The worked simulation definitions are refused, each at its place and for its reason.
pub fn worked_files_are_refused()
    ensures { FilesAreRefused }
{}

/// Worked trees pass the tests and fail them.
pub fn worked_trees_are_told()
    ensures { AreTold }
{}
