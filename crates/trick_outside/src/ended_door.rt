use crate::{Came, Door, LinkIn, LinkOut};
use std::marker::PhantomData;

/// A door that has ended: the door of a run that takes no clients.
#[derive(Debug, Drop)]
pub struct EndedDoor<I, O> {
    links: PhantomData<(I, O)>,
}

impl<I, O> EndedDoor<I, O> {
    /// A door that has ended.
    pub fn new() -> EndedDoor<I, O> {
        EndedDoor { links: PhantomData }
    }
}

impl<I: LinkIn, O: LinkOut> Door for EndedDoor<I, O>
where
    I: Drop,
    O: Drop,
{
    ghost use Rattle.std.proofs.Common.{refl};
    ghost use Rattle.std.specs.Prelude.{◌≡◌, []};
    ghost use Rattle.trick_outside.specs.VisitLaws.{none_join};
    ghost use Rattle.trick_outside.specs.Visits.{clients};

    type In = I;

    type Out = O;

    ghost failures = { λ door. 0 };

    ghost idleness = { λ door. 0 };

    // It gave no client.
    ghost visited = { λ old visits new. clients visits ≡ [] };

    ghost has_client = { λ door. ⊥ };

    ghost has_ended = { λ door. Unit {0} };

    fn next(&mut self) -> Came<I, O> {
        Came::Ended
    }

    fn back(&mut self, _number: u32, _input: I, _output: O) {}

    fn faults(&self) -> u64 {
        0
    }

    fn idle(&self) -> u64 {
        0
    }

    ghost visited_none = { λ door. refl };

    ghost visited_join = { λ first second third early late one two. none_join early late one two };
}
