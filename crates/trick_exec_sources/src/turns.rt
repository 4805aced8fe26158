ghost use Rattle.std.specs.Prelude.{◌≡◌, ◌++◌, [], Bool, IsTrue, List, ℕ, Option, false, true};
ghost use Rattle.trick_model.specs.Session.{Message};
ghost use Rattle.trick_model.specs.State.{seen};
ghost use Rattle.trick_exec_sources.specs.declared.turns.Next.TheVariants.{Nothing};

use std::alloc::{AllocError, Global};
use trick_lang::Cells;
use trick_model::{Entry, Session, State};

/// What the next turn is given.
#[derive(Drop)]
pub enum Next {
    /// The turn's entries, in order.
    Entries(Vec<Entry>),
    /// The turn is given no entry. It means what an empty list means, and there is no list to let go of.
    Nothing,
    /// So many turns are given no entry, this one and those after it. It comes in Freeze alone, where such turns
    /// do nothing but to be counted, and they are one at least.
    Gap { turns: u64 },
    /// No join, line or leave comes any more. It comes in Freeze alone, where the run is then over.
    NoMore,
    /// The journal ends at turn `kept`, and the run would end at turn `given`.
    Length { kept: u64, given: u64 },
    /// There was no memory for the entries.
    OutOfMemory,
}

/// Gives each turn of a run its entries, and takes the messages to sessions.
///
/// `docs/RULES.md` says which entries may come. What was answered and handed over stands in `went`, so
/// that a run can say what it was given; no history is stored.
pub trait Turns<M: Cells> {
    ghost use Rattle.trick_exec_sources.specs.Gap.{Gap, GivesNone, IfGap};
    ghost use Rattle.trick_exec_sources.specs.Turns.{answered, Answer, EndsAt, Gives, GoesOn, is_among, Pays, sent, Sessions, Told};

    /// On the way from the first value to the second just these answers were given, and these messages
    /// handed over.
    ghost went: { Self → List Answer → List Message → Self → Type 0 };

    /// It gave, in Freeze, a list without a join, a line or a leave, and none with one since.
    ghost owes: { Self → Bool };

    /// The journal that it has still to give, where it tells one.
    ghost journal: { Self → Option Told };

    /// The publications that it gives decide what is published.
    ghost decided: { Self → Bool };

    /// The sessions by the lists that it gave.
    ghost sessions: { Self → Sessions };

    /// It takes messages to the session of this number.
    ghost takes: { Self → ℕ → Type 0 };

    /// Gives the turn that comes next no entry, in this state, where these sessions are there and it is known at once
    /// that there is none; and tells whether it did. True means what `Next::Nothing` of `entries` means. Else nothing
    /// changes, and `entries` says what the turn is given. It costs next to nothing, and takes no memory.
    fn gives_nothing(&mut self, state: &State<M>, live: &[Session]) -> bool
        ensures step { result ≡ true → went self.old (answered (seen M.numbers state.now) live.now Nothing) [] self.new }
        ensures pays { result ≡ true → Pays (seen M.numbers state.now) Nothing (owes self.old) (owes self.new) }
        ensures gives { result ≡ true → Gives (seen M.numbers state.now) (journal self.old) Nothing (journal self.new) }
        ensures rules { result ≡ true → GoesOn (decided self.old) (sessions self.old) Nothing (sessions self.new) }
        ensures decides { result ≡ true → decided self.new ≡ decided self.old }
        ensures unchanged { result ≡ false → self.new ≡ self.old };

    /// The entries of the turn that comes next, in this state, where these sessions are there. Where it
    /// tells a journal, what it answers is what the journal says. A gap is what as many empty lists would be.
    fn entries(&mut self, alloc: Global, state: &State<M>, live: &[Session]) -> Next
        ensures step { went self.old (answered (seen M.numbers state.now) live.now result) [] self.new }
        ensures pays { Pays (seen M.numbers state.now) result (owes self.old) (owes self.new) }
        ensures gives { Gives (seen M.numbers state.now) (journal self.old) result (journal self.new) }
        ensures rules { GoesOn (decided self.old) (sessions self.old) result (sessions self.new) }
        ensures decides { decided self.new ≡ decided self.old }
        ensures gap { IfGap result (λ turns. Gap (λ s old new. GivesNone went owes journal decided sessions live.now s old new)
            (seen M.numbers state.now) turns self.old self.new) };

    /// Where a run is over at this turn: the journal's end and the turn, exactly where a journal is
    /// told and its end is another turn.
    fn ends(&mut self, turn: u64) -> Option<(u64, u64)>
        ensures numbers { EndsAt turn (journal self.old) result }
        ensures step { went self.old [] [] self.new };

    /// Whether the publications that `entries` gives decide what is published.
    fn decides(&self) -> bool
        ensures { result ≡ decided self.now };

    /// Hands a message to a session that it takes messages to: each that joined and had not left before
    /// the last list. The only refusal is for want of memory, and nothing is handed over then.
    fn send(&mut self, session: u32, bytes: &[u8]) -> Result<(), AllocError>
        requires { takes self.old session }
        ensures step { went self.old [] (sent result session bytes.now) self.new }
        ensures owes { owes self.new ≡ owes self.old }
        ensures journal { journal self.new ≡ journal self.old }
        ensures decides { decided self.new ≡ decided self.old }
        ensures sessions { sessions self.new ≡ sessions self.old };

    /// It takes messages to each session that joined and had not left before the last list.
    ghost reaches: { (turns : Self) (session : ℕ) → IsTrue (is_among session (sessions turns).reached)
        → takes turns session };

    /// From a value to itself nothing is answered and nothing handed over.
    ghost went_none: { (turns : Self) → went turns [] [] turns };

    /// Steps join.
    ghost went_join: { (first second third : Self) (early late : List Answer) (some more : List Message)
        → went first early some second → went second late more third
        → went first (early ++ late) (some ++ more) third };
}
