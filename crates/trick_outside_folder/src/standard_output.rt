//! Standard output.

use std::io;
use trick_outside::{Sink, Taken1};

/// Standard output, as a sink. It tells nothing of what it has taken.
#[derive(Drop)]
pub struct StandardOutput<'a, R: Print> {
    rt: &'a R,
    faults: u64,
}

impl<'a, R: Print> StandardOutput<'a, R> {
    /// Standard output, to which no write has failed yet.
    pub fn new(rt: &'a R) -> Self {
        StandardOutput { rt, faults: 0 }
    }
}

impl<R: Print> Sink for StandardOutput<'_, R> {
    ghost use Rattle.std.specs.Prelude.{None};

    ghost holds = { λ _. None };

    ghost failures = { λ out. out.faults };

    ghost called = { λ _ _ _. Unit {0} };

    ghost called_none = { λ _. tt };

    ghost called_join = { λ _ _ _ _ _ _ _. tt };

    fn write(&mut self, piece: &[u8]) -> Taken1 {
        match self.rt.write_some(piece) {
            Ok(count) if count > 0 || piece.is_empty() => Taken1::Took(count),
            Err(error) if error.kind() == io::ErrorKind::OutOfMemory => Taken1::OutOfMemory,
            _ => {
                self.faults = self.faults.saturating_add(1);
                Taken1::Failed
            }
        }
    }

    fn faults(&self) -> u64 {
        self.faults
    }
}
