ghost use Rattle.std.specs.Prelude.{◌≡◌, ◌++◌, ◌∷◌, [], List, ℕ};
ghost use Rattle.trick_outside.specs.Causes.{HasCause};

use crate::{LinkIn, LinkOut};

/// The answer of a door that was asked for a client.
#[derive(Debug, Drop)]
pub enum Came<I, O> {
    /// A client, as the two links to it.
    Client(I, O),
    /// No client came yet, and the count of idle calls rose.
    NotYet,
    /// No client comes any more.
    Ended,
    /// The door failed, and its count of faults rose. It is asked no more.
    Failed,
    /// There was no memory for a client.
    OutOfMemory,
}

/// What gives clients, each as the two links to it, and gets the links back.
///
/// `visited` says which clients it gave, in which order, and what it was given back.
pub trait Door {
    ghost use Rattle.trick_outside.specs.Visits.{Back, GivesClient, Visit, asked};

    /// The link in which the bytes of a client come.
    type In: LinkIn;

    /// The link in which messages go to it.
    type Out: LinkOut;

    /// How often it has failed. The count never falls, and stands still at 2^64 - 1.
    ghost failures: { Self → ℕ };

    /// How often it was asked and no client had come. The count never falls, and stands still at
    /// 2^64 - 1.
    ghost idleness: { Self → ℕ };

    /// On the way from the first value to the second just these calls were made, with these answers.
    ghost visited: { Self → List (Visit Self.In Self.Out) → Self → Type 0 };

    /// It tells that its next answer is a client.
    ghost has_client: { Self → Type 0 };

    /// It has ended: no client comes any more.
    ghost has_ended: { Self → Type 0 };

    /// The next client. `NotYet` comes only where the count of idle calls rose in this call, and `Failed`
    /// only where the count of faults did, or where the count stands at its end. After `Ended` each
    /// answer is `Ended`.
    fn next(&mut self) -> Came<Self::In, Self::Out>
        ensures visited { visited self.old (asked result ∷ []) self.new }
        ensures cause { HasCause (failures self.old) (failures self.new) (result ≡ Came.Failed) }
        ensures idle { HasCause (idleness self.old) (idleness self.new) (result ≡ Came.NotYet) }
        ensures first { has_client self.old → GivesClient result }
        ensures last { has_ended self.old → result ≡ Came.Ended }
        ensures ended { result ≡ Came.Ended → has_ended self.new };

    /// Takes back the links of the client of this number, at the end of the run. It takes no memory,
    /// since room was made where the client was given.
    fn back(&mut self, number: u32, input: Self::In, output: Self::Out)
        ensures visited { visited self.old (Back number input output ∷ []) self.new }
        ensures failures { failures self.new ≡ failures self.old }
        ensures idle { idleness self.new ≡ idleness self.old }
        ensures ended { has_ended self.old → has_ended self.new };

    /// The count of faults.
    fn faults(&self) -> u64
        ensures { result ≡ failures self.now };

    /// The count of idle calls.
    fn idle(&self) -> u64
        ensures { result ≡ idleness self.now };

    /// From a value to itself no call is made.
    ghost visited_none: { (door : Self) → visited door [] door };

    /// Calls that are made one after another are made.
    ghost visited_join: { (first second third : Self) (early late : List (Visit Self.In Self.Out))
        → visited first early second → visited second late third → visited first (early ++ late) third };
}
