ghost use Rattle.std.specs.Prelude.{◌≡◌, ◌≤◌, [], List, ℕ, Option, length};
ghost use Rattle.trick_outside.specs.Causes.{HasCause};
ghost use Rattle.trick_outside.specs.Links.{Took, bytes_taken};
ghost use Rattle.trick_outside.specs.Pieces.{Progress};

use crate::Taken1;

/// The direction of a client's connection in which messages go to it.
///
/// A link may tell which bytes it has taken, or nothing: what its calls leave of them is said where it
/// tells.
pub trait LinkOut {
    /// The bytes that it has taken, where it tells.
    ghost holds: { Self → Option (List ℕ) };

    /// How often it has failed. The count never falls, and stands still at 2^64 - 1.
    ghost failures: { Self → ℕ };

    /// Takes the piece or the first bytes of it: at most the whole piece, and never `Took(0)` of a
    /// piece that is not empty. Every other answer takes none. `Failed` comes only where the count of
    /// faults rose in this call, or stands at its end.
    fn write(&mut self, piece: &[u8]) -> Taken1
        ensures taken { Took (holds self.old) (holds self.new) (bytes_taken result piece.now) }
        ensures progress { Progress result (length piece.now) }
        ensures cause { HasCause (failures self.old) (failures self.new) (result ≡ Taken1.Failed) };

    /// Closes the connection in both directions, so that a read that waits for the client ends. It takes
    /// no byte.
    fn hang_up(&mut self)
        ensures taken { Took (holds self.old) (holds self.new) [] }
        ensures later { failures self.old ≤ failures self.new };

    /// The count of faults.
    fn faults(&self) -> u64
        ensures { result ≡ failures self.now };
}
