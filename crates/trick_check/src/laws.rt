//! Laws of the program that a file names and of its refusals. A function that calls one of them may rest
//! on what it says; the call itself does nothing.

ghost use Rattle.std.specs.Prelude.{◌≡◌, ◌≢◌};
ghost use Rattle.trick_check.specs.Named.{AreSame, IsNamed};
ghost use Rattle.trick_check.specs.Refused.{IsRefused};
ghost use Rattle.trick_check.specs.declared.fault.CheckFault.TheVariants.{OutOfMemory};

/// All programs that a file names have the same parts.
pub fn a_file_has_one_program()
    ensures { (ds : _) (p : _) (q : _) → IsNamed ds p → IsNamed ds q → AreSame p q }
{}

/// A file has one refusal, where memory is not what was wanting.
pub fn a_file_has_one_refusal()
    ensures { (ds : _) (a : _) (b : _) → a ≢ OutOfMemory → b ≢ OutOfMemory → IsRefused ds a → IsRefused ds b → a ≡ b }
{}

/// A file that names a program has no refusal; only memory may be wanting.
pub fn no_file_is_named_and_refused()
    ensures { (ds : _) (p : _) (fault : _) → IsNamed ds p → IsRefused ds fault → fault ≡ OutOfMemory }
{}
