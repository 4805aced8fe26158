ghost use Rattle.std.specs.Prelude.{◌≡◌, ◌++◌, ◌∷◌, [], List, ℕ, Option, length};

/// What a sink took of one piece.
#[derive(Clone, Copy, Debug, PartialEq, Eq)]
pub enum Taken1 {
    /// That many bytes, the first ones of the piece.
    Took(usize),
    /// None: the sink failed, and its count of faults rose.
    Failed,
    /// None: there was no memory.
    OutOfMemory,
}

/// What takes bytes in pieces, as standard output does.
///
/// A sink may tell which bytes it has taken, or nothing: what its calls leave of them is said where
/// it tells. Whether it tells or not, `called` says which pieces it was given, and what it answered.
pub trait Sink {
    ghost use Rattle.trick_outside.specs.Pieces.{Piece, Pieces, Progress, piece_call};

    /// The bytes that it has taken, where it tells.
    ghost holds: { Self → Option (List ℕ) };

    /// How often it has failed. The count never falls, and stands still at 2^64 - 1.
    ghost failures: { Self → ℕ };

    /// On the way from the first value to the second just these pieces were given, with these
    /// answers.
    ghost called: { Self → List Piece → Self → Type 0 };

    /// Takes the piece or the first bytes of it: at most the whole piece, and never `Took(0)` of a
    /// piece that is not empty. Every other answer takes none. `Failed` comes only where the count
    /// of faults rose in this call, or stands at its end.
    fn write(&mut self, piece: &[u8]) -> Taken1
        ensures told { called self.old (piece_call piece.now result ∷ []) self.new }
        ensures progress { Progress result (length piece.now) }
        ensures went { Pieces (holds self.old) (holds self.new) (failures self.old) (failures self.new)
            (piece_call piece.now result ∷ []) };

    /// The count of faults.
    fn faults(&self) -> u64
        ensures { result ≡ failures self.now };

    /// From a value to itself no piece is given.
    ghost called_none: { (sink : Self) → called sink [] sink };

    /// Pieces that are given one after another are given.
    ghost called_join: { (first second third : Self) (early late : List Piece)
        → called first early second → called second late third → called first (early ++ late) third };
}
