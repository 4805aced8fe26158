ghost use Rattle.std.specs.Prelude.{◌≡◌, [], IfOk, None, codes, false, true};

use std::alloc::{AllocError, Global};
use trick_model::Deed;

/// What a line comes to, besides what it changes in its session.
#[derive(Debug, Drop)]
pub struct Reply {
    /// The message to the client, with its line feed; no byte where there is none.
    pub bytes: Vec<u8>,
    /// A deed that is to be done.
    pub act: Option<Deed>,
    /// Whether Freeze is to be left.
    pub run: bool,
}

impl Reply {
    // No message, and nothing to do.
    pub(crate) fn quiet(alloc: Global) -> Self
        ensures bytes { result.bytes.items ≡ [] }
        ensures act { result.act ≡ None }
        ensures run { result.run ≡ false }
    {
        Reply {
            bytes: Vec::new(alloc),
            act: None,
            run: false,
        }
    }

    // A message alone.
    pub(crate) fn message(alloc: Global, bytes: &[u8]) -> Result<Self, AllocError>
        ensures bytes { IfOk result (λ reply. reply.bytes.items ≡ bytes.now) }
        ensures act { IfOk result (λ reply. reply.act ≡ None) }
        ensures run { IfOk result (λ reply. reply.run ≡ false) }
    {
        Ok(Reply {
            bytes: bytes.to_vec(alloc)?,
            act: None,
            run: false,
        })
    }

    // The answer to a bad command.
    pub(crate) fn bad(alloc: Global) -> Result<Self, AllocError>
        ensures bytes { IfOk result (λ reply. reply.bytes.items ≡ codes "4\tbad command\n") }
        ensures act { IfOk result (λ reply. reply.act ≡ None) }
        ensures run { IfOk result (λ reply. reply.run ≡ false) }
    {
        Reply::message(alloc, b"4\tbad command\n")
    }

    // A deed that is to be done.
    pub(crate) fn act(alloc: Global, deed: Deed) -> Self
        ensures bytes { result.bytes.items ≡ [] }
        ensures act { result.act ≡ Some deed }
        ensures run { result.run ≡ false }
    {
        Reply {
            bytes: Vec::new(alloc),
            act: Some(deed),
            run: false,
        }
    }

    // Freeze is to be left.
    pub(crate) fn resume(alloc: Global) -> Self
        ensures bytes { result.bytes.items ≡ [] }
        ensures act { result.act ≡ None }
        ensures run { result.run ≡ true }
    {
        Reply {
            bytes: Vec::new(alloc),
            act: None,
            run: true,
        }
    }
}
