//! What the source of entries of a run with clients gives and takes.

ghost use Rattle.std.specs.Prelude.{◌≡◌, ◌≢◌, ◌≤◌, ◌++◌, ◌∷◌, [], ℕ, List};
ghost use Rattle.std.specs.Prelude.{IfOk, None, Ok, OnOk, false, filter, is_ok, length, true};
ghost use Rattle.trick_model.specs.declared.session.Session.{Session};
ghost use Rattle.trick_serve_source.specs.Calls.{WentOn};
ghost use Rattle.trick_serve_hearing.specs.Clients.{AreOfClients, IsLast, IsSilent, has_lack};
ghost use Rattle.trick_serve_source.specs.Looks.{Came, HasFound, HasNoMore};
ghost use Rattle.trick_serve_source.specs.Rolls.{IsGathered, view_of, ways_of};
ghost use Rattle.trick_serve_hearing.specs.Rules.{AreCalm, AreQuick, is_live, sessions_by};
ghost use Rattle.trick_serve_hearing.specs.declared.seat.Seat.{Seat};
ghost use Rattle.trick_serve_seats.specs.Departures.{left_of};
ghost use Rattle.trick_serve_seats.specs.declared.departure.Departure.TheVariants.{Run};
ghost use Rattle.trick_exec_sources.specs.Gap.{IfGap};
ghost use Rattle.trick_exec_sources.specs.Turns.{Gives, GoesOn, Pays, answered, no_sessions};
ghost use Rattle.trick_model.specs.State.{seen};
ghost use Rattle.trick_model.specs.Turn.{is_frozen as is_frozen_of};
ghost use Rattle.trick_wire.specs.Ends.{IsSamePutter, IsSameTaker, put_by, taken_by};

use crate::asks::{Asks, Brought};
use crate::clients::{Took, take_clients};
use crate::{Finished, Roll, Served};
use std::alloc::{AllocError, Global};
use std::sync::{Arc, Wait};
use trick_base::Items;
use trick_exec_sources::{Next, Turns};
use trick_lang::Cells;
use trick_model::{Entry, Mode, Session, State};
use trick_serve_door::{Comes, Departure};
use trick_serve_hearing::Seat;
use trick_turn::Bell;
use trick_wire::{Putter, Taker};

// Whether no time passes in a mode.
fn is_frozen(mode: Mode) -> bool
    ensures { result ≡ is_frozen_of mode }
{
    matches!(mode, Mode::Freeze)
}

// Whether something had come of the door, after this was taken.
fn is_asked(asked: bool, took: Took) -> bool
    ensures reason { result ≡ true → asked ≡ false → took ≢ Took.Nothing }
    ensures stays { asked ≡ true → result ≡ true }
{
    asked || !matches!(took, Took::Nothing)
}

// Whether something had come of the door before its first client: it was known, or something has come and no client.
fn is_silent(silent: bool, asked: bool, seats: &[Seat]) -> bool
    ensures reason { result ≡ true → silent ≡ false → (asked ≡ true) × (seats.now ≡ []) }
    ensures stays { silent ≡ true → result ≡ true }
    ensures quiet { asked ≡ true → seats.now ≡ [] → result ≡ true }
{
    silent || asked && seats.is_empty()
}

// Whether no client comes any more, after this was taken.
fn is_over(over: bool, took: Took) -> bool
    ensures reason { result ≡ true → over ≡ false → took ≡ Took.Over }
    ensures stays { over ≡ true → result ≡ true }
{
    over || matches!(took, Took::Over)
}

// Tells that the run is over, and rests where there is no room.
fn tell_over<R: Wait>(rt: &R, gone: &mut Putter<Departure>)
    ensures queue { IsSamePutter gone.old gone.new }
    ensures put { put_by gone.new ≡ put_by gone.old ++ Run ∷ [] }
{
    for _ in rt.forever() {
        let mark = gone.mark();
        if gone.push(rt, Departure::Run).is_ok() {
            return;
        }
        gone.rest(rt, mark);
    }
    unreachable!()
}

impl<I: Drop, O: Drop, R: Wait + Copy> Served<I, O, R> {
    /// The source of entries of a run to which no client has come yet. Clients come by `coming`, of which nothing was
    /// taken. Into `gone`, into which nothing was put, goes which sessions left, and at the end that the run is over;
    /// it needs room for 65. The bell is rung after each put into `coming`, into an inbox and into a queue of causes: what
    /// was put without a ring may stay there until the next ring. Takes no memory.
    pub fn new(
        rt: R,
        alloc: Global,
        bell: Arc<Bell>,
        coming: Taker<Comes<I, O>>,
        gone: Putter<Departure>,
    ) -> Self
        requires none { taken_by coming ≡ [] }
        requires untold { put_by gone ≡ [] }
        ensures seats { result.roll.seats.items ≡ [] }
        ensures sessions { sessions_by result.roll.seats.items result.roll.live.items result.reached.items
            ≡ no_sessions }
        ensures whole { result.broke ≡ false }
        ensures silent { result.silent ≡ false }
        ensures coming { result.coming ≡ coming }
        ensures gone { result.gone ≡ gone }
    {
        Served {
            rt,
            alloc,
            bell,
            roll: Roll::new(alloc),
            reached: Vec::new(alloc),
            coming,
            gone,
            asked: false,
            over: false,
            broke: false,
            idle: false,
            mark: 0,
            silent: false,
        }
    }

    /// Ends the run: closes the inbox and the outbox of each session, tells that the run is over, and hands out the
    /// seats, of which the n-th is of the n-th client that was taken of `coming`, and the queues to the acceptor. The
    /// messages that wait can still be written.
    pub fn finish(self) -> Finished<I, O>
        ensures seats { result.seats ≡ self.roll.seats }
        ensures clients { AreOfClients (taken_by result.coming) result.seats.items }
        ensures last { self.over ≡ true → IsLast (taken_by result.coming) result.seats.items }
        ensures silent { self.silent ≡ true → IsSilent (taken_by result.coming) }
        ensures memory { self.broke ≡ false → has_lack (taken_by result.coming) ≡ false }
        ensures left { left_of (put_by result.gone) ≤ length result.seats.items }
        ensures coming { result.coming ≡ self.coming }
        ensures gone { IsSamePutter self.gone result.gone }
        ensures told { put_by result.gone ≡ put_by self.gone ++ Run ∷ [] }
    {
        self.roll.close();
        let Served {
            rt,
            roll,
            coming,
            mut gone,
            ..
        } = self;
        tell_over(&rt, &mut gone);
        let Roll { seats, .. } = roll;
        Finished {
            seats,
            coming,
            gone,
        }
    }

    // Seats the clients that came, and keeps what is known of the door by then, also where there was no memory, or it
    // came that there was none.
    fn seat(&mut self) -> Result<(), AllocError>
        ensures coming { IsSameTaker self.old.coming self.new.coming }
        ensures gone { IsSamePutter self.old.gone self.new.gone }
        ensures reached { self.new.reached ≡ self.old.reached }
        ensures broke { OnOk result (self.new.broke ≡ self.old.broke) }
        ensures over { self.old.over ≡ true → self.new.over ≡ true }
        ensures silent { self.old.silent ≡ true → self.new.silent ≡ true }
        ensures gathers { (there : List Session) (was : List Seat) (known : List ℕ)
            → IsGathered there was known self.old.roll true → IsGathered there was known self.new.roll (is_ok result) }
    {
        if self.over {
            return Ok(());
        }
        let rt = self.rt;
        let taken = take_clients(&rt, &mut self.coming, &mut self.roll);
        let Ok(took) = taken else {
            self.idle = false;
            self.broke = true;
            return Err(AllocError);
        };
        self.asked = is_asked(self.asked, took);
        self.over = is_over(self.over, took);
        self.silent = is_silent(self.silent, self.asked, &self.roll.seats);
        Ok(())
    }

    // Looks once at what came, and gathers a list of it.
    fn look(&mut self, there: &[Session]) -> Result<(), AllocError>
        ensures coming { IsSameTaker self.old.coming self.new.coming }
        ensures gone { IsSamePutter self.old.gone self.new.gone }
        ensures reached { self.new.reached ≡ self.old.reached }
        ensures broke { OnOk result (self.new.broke ≡ self.old.broke) }
        ensures over { self.old.over ≡ true → self.new.over ≡ true }
        ensures silent { self.old.silent ≡ true → self.new.silent ≡ true }
        ensures gathered { IsGathered there.now self.old.roll.seats.items
            (filter (is_live self.old.roll.seats.items) self.old.roll.live.items) self.new.roll (is_ok result) }
        ensures quick { is_ok result ≡ true → AreQuick self.new.roll.seats.items
            (filter (is_live self.new.roll.seats.items) self.new.roll.live.items) }
    {
        let rt = self.rt;
        self.roll.dismiss(&rt, &mut self.gone);
        self.roll.begin();
        self.roll.hang_up(there)?;
        self.seat()?;
        self.roll.listen(&rt, self.alloc)
    }

    // Looks until a list was gathered, which in Freeze is not empty, and asks before each look but the first one. False
    // where no line comes any more.
    fn find<A: Asks>(
        &mut self,
        asks: &mut A,
        frozen: bool,
        there: &[Session],
    ) -> Result<bool, AllocError>
        ensures asked { A.keeps asks.old asks.new }
        ensures coming { IsSameTaker self.old.coming self.new.coming }
        ensures gone { IsSamePutter self.old.gone self.new.gone }
        ensures reached { self.new.reached ≡ self.old.reached }
        ensures broke { OnOk result (self.new.broke ≡ self.old.broke) }
        ensures found { result ≢ Ok false
            → HasFound there.now (view_of self.old) self.new.roll self.new.silent (is_ok result) }
        ensures filled { result ≡ Ok true → frozen ≡ true → self.new.roll.list.items ≢ [] }
        ensures answered { result ≡ Ok true → self.new.roll.seats.items ≡ [] → self.new.roll.list.items ≡ []
            → self.new.silent ≡ true }
        ensures quick { result ≡ Ok true → AreQuick self.new.roll.seats.items
            (filter (is_live self.new.roll.seats.items) self.new.roll.live.items) }
        ensures over { result ≡ Ok false → HasNoMore frozen (view_of self.old) (view_of self.new) }
    {
        let rt = self.rt;
        for _ in rt.forever() {
            let mark = self.bell.mark();
            self.look(there)?;
            if !self.roll.list.is_empty() || self.asked && !frozen {
                return Ok(true);
            }
            if self.over && frozen && self.roll.are_over() {
                return Ok(false);
            }
            asks.rest(&rt, &self.bell, mark);
            asks.ask();
        }
        unreachable!()
    }

    // Moves the list out. Those that were live as it began, and those that joined in it, can be sent messages.
    fn give(&mut self, alloc: Global) -> Result<Vec<Entry>, AllocError>
        ensures seats { self.new.roll.seats ≡ self.old.roll.seats }
        ensures coming { self.new.coming ≡ self.old.coming }
        ensures gone { self.new.gone ≡ self.old.gone }
        ensures live { self.new.roll.live ≡ self.old.roll.live }
        ensures broke { self.new.broke ≡ self.old.broke }
        ensures silent { self.new.silent ≡ self.old.silent }
        ensures over { self.new.over ≡ self.old.over }
        ensures list { IfOk result (λ list. list.items ≡ self.old.roll.list.items) }
        ensures reached { OnOk result (self.new.reached.items ≡ self.old.roll.live.items) }
    {
        self.reached.clear();
        self.reached.extend_from_slice(&self.roll.live)?;
        Ok(self.roll.take_list(alloc))
    }

    // The list that is given next. None where no line comes any more.
    fn list<A: Asks>(
        &mut self,
        asks: &mut A,
        alloc: Global,
        frozen: bool,
        there: &[Session],
    ) -> Result<Option<Vec<Entry>>, AllocError>
        ensures asked { A.keeps asks.old asks.new }
        ensures came { Came there.now frozen (view_of self.old) (view_of self.new) result }
        ensures coming { IsSameTaker self.old.coming self.new.coming }
        ensures gone { IsSamePutter self.old.gone self.new.gone }
        ensures broke { OnOk result (self.new.broke ≡ self.old.broke) }
    {
        if self.find(asks, frozen, there)? {
            let list = self.give(alloc)?;
            return Ok(Some(list));
        }
        Ok(None)
    }

    // What the next turn is given after a look at what came. It stays apart from `next`, since mostly nothing has come.
    #[inline(never)]
    fn seek<M: Cells, A: Asks>(
        &mut self,
        asks: &mut A,
        alloc: Global,
        state: &State<M>,
        there: &[Session],
    ) -> Next
        ensures asked { A.keeps asks.old asks.new }
        ensures went { WentOn (view_of self.old) (view_of self.new) (ways_of self.old) (ways_of self.new)
            (answered (seen M.numbers state.now) there.now result) [] }
        ensures pays { Pays (seen M.numbers state.now) result false false }
        ensures gives { Gives (seen M.numbers state.now) None result None }
        ensures rules { GoesOn false (view_of self.old).sessions result (view_of self.new).sessions }
        ensures no_gap { IfGap result (λ turns. ⊥) }
    {
        if self.broke {
            return Next::OutOfMemory;
        }
        match self.list(asks, alloc, is_frozen(state.mode), there) {
            Ok(Some(list)) => {
                let is_empty = list.is_empty();
                self.idle = self.asked && is_empty;
                if is_empty {
                    return Next::Nothing;
                }
                Next::Entries(list)
            }
            Ok(None) => Next::NoMore,
            Err(AllocError) => {
                self.idle = false;
                self.broke = true;
                Next::OutOfMemory
            }
        }
    }

    // Whether no session is there, and none can be sent messages.
    fn is_alone(&self) -> bool
        ensures live { result ≡ true → self.now.roll.live.items ≡ [] }
        ensures reached { result ≡ true → self.now.reached.items ≡ [] }
    {
        matches!(self.roll.live.as_slice(), []) && matches!(self.reached.as_slice(), [])
    }

    // Whether a turn is given nothing without a look, where nothing has come since the last look: nothing had come at
    // that look, and no session is to leave.
    #[tactic(auto, using(crate::proofs::Calm::calm_none))]
    fn is_calm(&self, there: &[Session]) -> bool
        ensures calm { result ≡ true
            → AreCalm self.now.roll.seats.items self.now.roll.live.items self.now.reached.items }
        ensures asked { result ≡ true → self.now.asked ≡ true }
        ensures whole { result ≡ true → self.now.broke ≡ false }
    {
        self.idle && (self.is_alone() || self.roll.is_calm(&self.reached, there))
    }

    /// What the next turn is given, where this one brings the clients.
    pub(crate) fn next<M: Cells, A: Asks>(
        &mut self,
        asks: &mut A,
        alloc: Global,
        state: &State<M>,
        there: &[Session],
    ) -> Next
        ensures asked { A.keeps asks.old asks.new }
        ensures went { WentOn (view_of self.old) (view_of self.new) (ways_of self.old) (ways_of self.new)
            (answered (seen M.numbers state.now) there.now result) [] }
        ensures pays { Pays (seen M.numbers state.now) result false false }
        ensures gives { Gives (seen M.numbers state.now) None result None }
        ensures rules { GoesOn false (view_of self.old).sessions result (view_of self.new).sessions }
        ensures no_gap { IfGap result (λ turns. ⊥) }
    {
        asks.ask();
        let mark = self.bell.mark();
        if self.mark != mark || is_frozen(state.mode) {
            self.mark = mark;
            return self.seek(asks, alloc, state, there);
        }
        if self.is_calm(there) {
            return Next::Nothing;
        }
        self.seek(asks, alloc, state, there)
    }
}

impl<M: Cells, I: Drop, O: Drop, R: Wait + Copy> Turns<M> for Served<I, O, R> {
    ghost use Rattle.std.specs.Prelude.{◌<◌};
    ghost use Rattle.trick_serve_source.specs.CallLaws.{seated_among, went_on_join, went_on_none};

    ghost went = { λ old answers messages new. WentOn (view_of old) (view_of new) (ways_of old) (ways_of new)
        answers messages };

    ghost owes = { λ turns. false };

    ghost journal = { λ turns. None };

    ghost decided = { λ turns. false };

    ghost sessions = { λ turns. sessions_by turns.roll.seats.items turns.roll.live.items turns.reached.items };

    ghost takes = { λ turns session. (0 < session) × (session ≤ length turns.roll.seats.items) };

    fn gives_nothing(&mut self, state: &State<M>, there: &[Session]) -> bool {
        if self.mark != self.bell.mark() || is_frozen(state.mode) {
            return false;
        }
        self.is_calm(there)
    }

    fn entries(&mut self, alloc: Global, state: &State<M>, there: &[Session]) -> Next {
        self.next(&mut Brought, alloc, state, there)
    }

    fn ends(&mut self, _turn: u64) -> Option<(u64, u64)> {
        None
    }

    fn decides(&self) -> bool {
        false
    }

    fn send(&mut self, session: u32, bytes: &[u8]) -> Result<(), AllocError> {
        let message = Items::from_bytes(self.alloc, bytes)?;
        let rt = self.rt;
        self.roll.hand(&rt, session, message);
        Ok(())
    }

    ghost reaches = { λ turns session there.
        seated_among session turns.reached.items turns.roll.seats.items turns.reach there };

    ghost went_none = { λ turns. went_on_none _ _ };

    ghost went_join = { λ first second third early late some more one two.
        went_on_join _ _ _ _ _ _ early late some more one two };
}
