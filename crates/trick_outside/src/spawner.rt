ghost use Rattle.std.specs.Prelude.{◌≡◌, ◌≤◌, ℕ, false};
ghost use Rattle.trick_outside.specs.Causes.{HasCause, Rose};

/// What says whether a work may start, and counts the starts that were refused. The start itself is the
/// call [`start`](crate::start).
pub trait Spawner {
    /// How many starts were refused. The count never falls, and stands still at 2^64 - 1.
    ghost failures: { Self → ℕ };

    /// Whether the next work may start. `false` comes only where the count rose in this call, or stands
    /// at its end.
    fn admits(&mut self) -> bool
        ensures cause { HasCause (failures self.old) (failures self.new) (result ≡ false) };

    /// Counts a start that it admitted and that could not be made.
    fn refuse(&mut self)
        ensures counted { Rose (failures self.old) (failures self.new) }
        ensures later { failures self.old ≤ failures self.new };

    /// The count of starts that were refused.
    fn faults(&self) -> u64
        ensures { result ≡ failures self.now };
}
