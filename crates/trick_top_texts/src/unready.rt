//! Why two texts are not ready.

ghost use Rattle.std.specs.Prelude.{IfOk, List, ℕ};
ghost use Rattle.trick_top_texts.specs.Answers.{IsUnready};
ghost use Rattle.trick_top_texts.specs.Texts.{IsPlanRefused, IsTextRefused};

use std::alloc::AllocError;

/// Why an S_define and an input have no plan that is accepted. Each line is the one that is printed, with
/// its line feed.
#[derive(Debug, Drop)]
pub enum Unready {
    /// One of the texts is refused.
    TextRefused { line: Vec<u8> },
    /// The texts have a plan, which is refused.
    PlanRefused { line: Vec<u8> },
    /// There was no memory left.
    OutOfMemory,
}

impl Unready {
    /// A text is refused by this line, if there was memory for it.
    pub(crate) fn by_text(line: Result<Vec<u8>, AllocError>) -> Self
        ensures { (s_define input : List ℕ) → IfOk line (λ line. IsTextRefused s_define input line.items)
            → IsUnready s_define input result }
    {
        match line {
            Ok(line) => Unready::TextRefused { line },
            Err(_) => Unready::OutOfMemory,
        }
    }

    /// The plan is refused by this line, if there was memory for it.
    pub(crate) fn by_plan(line: Result<Vec<u8>, AllocError>) -> Self
        ensures { (s_define input : List ℕ) → IfOk line (λ line. IsPlanRefused s_define input line.items)
            → IsUnready s_define input result }
    {
        match line {
            Ok(line) => Unready::PlanRefused { line },
            Err(_) => Unready::OutOfMemory,
        }
    }
}
