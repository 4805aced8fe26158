//! A line of a client that is known to be one.

ghost use Rattle.std.specs.Prelude.{◌≡◌, IsTrue};
ghost use Rattle.trick_model.specs.Journal.{is_line};

use std::marker::Model;
use trick_base::Line;

/// A line that came from a client: at most 4,096 bytes and no line feed. Contracts see the list of its bytes.
#[derive(Drop)]
pub struct FedLine {
    line: Line,
}

impl Model for FedLine {
    ghost use Rattle.std.specs.Prelude.{IsTrue, List, ℕ};
    ghost use Rattle.trick_model.specs.Journal.{is_line};

    ghost Value = { List ℕ };

    ghost view = { λ fed. fed.line };

    ghost invariant = { λ fed. IsTrue (is_line fed.line) };
}

impl FedLine {
    // A line that is known to be one.
    pub(crate) fn new(line: Line) -> FedLine
        requires { IsTrue (is_line line) }
        ensures { result ≡ line }
    {
        FedLine { line }
    }

    /// The line, which stays where it is.
    pub fn into_line(self) -> Line
        ensures line { result ≡ self }
        ensures right { IsTrue (is_line self) }
    {
        let FedLine { line } = self;
        line
    }

    /// The bytes of the line.
    pub fn as_slice(&self) -> &[u8]
        ensures line { result.now ≡ self.now }
        ensures right { IsTrue (is_line self.now) }
    {
        self.line.as_slice()
    }
}
