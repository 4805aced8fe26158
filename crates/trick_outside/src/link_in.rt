ghost use Rattle.std.specs.Prelude.{◌≡◌, [], List, ℕ, Option, Some, length};
ghost use Rattle.trick_outside.specs.Causes.{HasCause};
ghost use Rattle.trick_outside.specs.Links.{Gave, bytes_given};

/// The answer to a read.
#[derive(Clone, Copy, Debug, PartialEq, Eq)]
pub enum Read1 {
    /// That many bytes, which stand at the front of the buffer.
    Count(usize),
    /// None, and none is left.
    End,
    /// None: the link failed, and its count of faults rose.
    Failed,
}

/// The direction of a client's connection in which its bytes come.
///
/// A link may tell which bytes it has left, or nothing: what its calls leave of them is said where it
/// tells.
pub trait LinkIn {
    ghost use Rattle.trick_outside.specs.Links.{ReadProgress};

    /// The bytes that it has left to give, where it tells.
    ghost holds: { Self → Option (List ℕ) };

    /// How often it has failed. The count never falls, and stands still at 2^64 - 1.
    ghost failures: { Self → ℕ };

    /// Gives the next bytes, at the front of the buffer: at most as many as it is long, and never
    /// `Count(0)` into a buffer that is not empty. Every other answer gives none. `End` comes only where
    /// no byte is left. `Failed` comes only where the count of faults rose in this call, or stands at its
    /// end.
    fn read(&mut self, buffer: &mut [u8]) -> Read1
        ensures length { length buffer.new ≡ length buffer.old }
        ensures given { Gave (holds self.old) (holds self.new) (bytes_given result buffer.new) }
        ensures over { result ≡ Read1.End → (bytes : List ℕ) → holds self.old ≡ Some bytes → bytes ≡ [] }
        ensures progress { ReadProgress result (length buffer.new) }
        ensures cause { HasCause (failures self.old) (failures self.new) (result ≡ Read1.Failed) };

    /// The count of faults.
    fn faults(&self) -> u64
        ensures { result ≡ failures self.now };
}
