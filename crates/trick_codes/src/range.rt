ghost use Rattle.std.specs.Prelude.{◌≤◌, ◌-◌, ◌^◌};

/// A range of numbers that holds 0: from minus `below`, at most 2^63, to `above`, at most 2^63 - 1.
#[derive(Clone, Copy, Debug, PartialEq, Eq)]
pub struct Range {
    pub below: u64,
    pub above: u64,
    pub ghost lowest: { below ≤ 2 ^ 63 },
    pub ghost highest: { above ≤ 2 ^ 63 - 1 },
}
