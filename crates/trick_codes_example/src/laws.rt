//! The laws of the file.

ghost use Rattle.std.specs.Prelude.{◌≡◌, ◌++◌, ℕ, List, []};
ghost use Rattle.trick_codes.specs.Lines.{Holds, text};
ghost use Rattle.trick_codes_example.specs.Panel.{panel};
ghost use Rattle.trick_codes_example.specs.declared.file.Gauge.{Gauge};
ghost use Rattle.trick_codes_example.specs.declared.file.Readings.{Readings};

/// No file of a panel is a proper prefix of another of the same panel, and each is of one reading.
pub fn no_file_is_a_proper_prefix()
    ensures { (gauges : List Gauge) → (x : Readings) → (y : Readings) → (more : List ℕ) → Holds (panel gauges) x
        → Holds (panel gauges) y
        → text (panel gauges) x ++ more ≡ text (panel gauges) y → (x ≡ y) × (more ≡ []) }
{}
