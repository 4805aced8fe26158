//! The theorem: for each file of sound lines, loading inverts printing, no text is a proper prefix of
//! another, and what is told of any other text is exact.

/// A kind of line file: what a text of it is of, and its lines, which are sound.
pub trait LineFile {
    ghost use Rattle.trick_codes.specs.Lines.{Lines, SoundLines};

    ghost Value: { Type 0 };

    ghost lines: { Lines Value };

    ghost is_sound: { SoundLines lines };
}

ghost use Rattle.std.specs.Prelude.{◌≡◌, ◌++◌, ℕ, List, [], Ok};
ghost use Rattle.trick_codes.specs.Exact.{TellsLines};
ghost use Rattle.trick_codes.specs.Gives.{Stops, fault_of};
ghost use Rattle.trick_codes.specs.Lines.{Holds, IsDue, read_lines, text};
ghost use Rattle.trick_codes.specs.Loads.{Refuses};
ghost use Rattle.trick_codes.specs.declared.kind.Kind.{Kind};
ghost use Rattle.trick_codes.specs.declared.stop.LineStop.{LineStop};

/// The text of a value is read as that value, and nothing is left.
pub fn reading_inverts_printing<F: LineFile>()
    ensures { (x : F.Value) → Holds F.lines x → read_lines F.lines (text F.lines x) ≡ Ok (x, []) }
{}

/// No text of a value is a proper prefix of another's, and each text is of one value.
pub fn no_text_is_a_proper_prefix<F: LineFile>()
    ensures { (x : F.Value) → (y : F.Value) → (more : List ℕ) → Holds F.lines x → Holds F.lines y
        → text F.lines x ++ more ≡ text F.lines y → (x ≡ y) × (more ≡ []) }
{}

/// What reading tells of any text is exact: the value of the text at its front, or that the text is
/// a prefix of one, or the first line with which it is none, and what is wrong with that line.
pub fn reading_is_exact<F: LineFile>()
    ensures { (ts : List ℕ) → TellsLines F.lines ts (read_lines F.lines ts) }
{}

/// The refusal of a text at which reading stopped is exact.
pub fn refusals_are_exact<F: LineFile>()
    ensures { (ts : List ℕ) → (stop : LineStop) → Stops stop (read_lines F.lines ts)
        → Refuses F.lines ts (fault_of ts stop) }
{}

/// After each front of a text one line at most is due, so that what is wrong with another line in
/// its place is one thing.
pub fn one_line_is_due<F: LineFile>()
    ensures { (front : List ℕ) → (k : List ℕ → Kind) → (j : List ℕ → Kind) → IsDue F.lines front k
        → IsDue F.lines front j → k ≡ j }
{}
