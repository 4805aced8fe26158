//! The lock, how it is made with its passes, and the steps that a pass takes at it.
ghost use Rattle.std.specs.Prelude.{◌≡◌};

use crate::keeps::{Adds, Keeps, Wakes};
use crate::pass::{NumberedSeat, Pass};
use crate::rule::{ClaimStep, JoinSeat, LookStep, OneTurn, ReleaseStep, SplitSeat};
use crate::sleep::{Bell, low_half};
use crate::view::View;
use atomic_table::{Refused, Table};
use std::alloc::{AllocError, Global};
use std::hint::spin_loop;
use std::sync::Wait;
use std::sync::atomic::AtomicU64;
use std::sync::atomic::Ordering::SeqCst;

/// The word where the turn is free.
const FREE: u64 = 0;

/// How often a claim that missed looks at the word before it sleeps. A turn is over in some 100 ns, and a sleep and its
/// wake take much longer.
const LOOKS: u32 = 50;

/// A value behind a turn. The passes that `new` made claim the turn one at a time, from any thread.
///
/// The word of the lock is 0 where the turn is free, else the number of the pass that has it.
#[derive(Drop)]
pub struct TurnLock<B: Keeps> {
    pub(crate) table: Table<Option<B>, View<B::Entry>, (), OneTurn<B>, Global>,
    // the threads that sleep on the word, or are about to
    sleepers: AtomicU64,
    // rung where something was added for which somebody may wait
    added: Bell,
    // rung where something began
    begun: Bell,
    ghost sized: { (table.shared.table_id.words ≡ 1) × (table.shared.table_id.slots ≡ 1) },
}

/// Making a lock with its passes, and taking a pass in.
impl<B: Keeps> TurnLock<B> {
    ghost use Rattle.std.specs.Prelude.{◌≡◌, ◌+◌, ◌<◌, ◌≤◌, [], vec_capacity, IfOk};
    ghost use mathlib.Core.List.{IsPrefix};
    ghost use Rattle.trick_turn.specs.Views.{after_split, split_off};
    ghost use Rattle.trick_turn.specs.Passes.{IsPassOf, IsSamePass, Rests, IsDealt, AreDealt, Joins, Looks};
    ghost use Rattle.trick_turn.specs.Passes.{view, number_of, made, seen};

    /// A lock with `seats` passes, which have the numbers from 1 on, in this order. The value has to stand for the
    /// empty list.
    ///
    /// Where memory runs out the value is lost.
    pub fn new(
        alloc: Global,
        value: B,
        seats: u32,
    ) -> Result<(TurnLock<B>, Vec<Pass<B>>), AllocError>
    where
        B: Drop,
        requires stands { B.stands value [] }
        requires seats { 0 < seats }
        ensures { IfOk result (λ t. AreDealt t.0 seats t.1.items) }
    {
        let mut passes = Vec::with_capacity(alloc, seats as usize)?;
        let (lock, first) = TurnLock::with_first(alloc, value)?;
        lock.deal_all(first, &mut passes, seats);
        Ok((lock, passes))
    }

    // A lock and its first pass.
    fn with_first(alloc: Global, value: B) -> Result<(TurnLock<B>, Pass<B>), AllocError>
    where
        B: Drop,
        requires { B.stands value [] }
        ensures { IfOk result (λ t. IsDealt t.0 1 1 t.1) }
    {
        let mut slots = Vec::with_capacity(alloc, 1)?;
        slots.push_reserved(Some(value));
        match Table::new(alloc, &[FREE], slots, &()) {
            Ok((table, inner)) => {
                let seat = NumberedSeat { inner, number: 1 };
                let lock = TurnLock {
                    table,
                    sleepers: AtomicU64::new(0),
                    added: Bell::new(),
                    begun: Bell::new(),
                };
                Ok((lock, Pass { seat }))
            }
            Err(Refused { slots: _ }) => Err(AllocError),
        }
    }

    // Splits the other passes from the first, and puts the first before them.
    fn deal_all(&self, mut first: Pass<B>, passes: &mut Vec<Pass<B>>, seats: u32)
        requires first { IsDealt self.now 1 1 first }
        requires room { (passes.old.items ≡ []) × (seats ≤ vec_capacity passes.old) × (0 < seats) }
        ensures { AreDealt self.now seats passes.new.items }
    {
        for made in 1..seats {
            let pass = self.deal(&mut first, made as u64 + 1);
            passes.push_reserved(pass);
        }
        passes.push_reserved(first);
        passes.rotate_right(1);
    }

    // Splits a pass with this number from the first.
    fn deal(&self, first: &mut Pass<B>, number: u64) -> Pass<B>
        requires own { IsPassOf self.now first.old × (number_of first.old ≡ 1) }
        requires number { number ≡ made first.old + 1 }
        ensures same { IsSamePass first.old first.new }
        ensures view { view first.new ≡ after_split (view first.old) }
        ensures taken { first.new.seat.inner.me.1 ≡ first.old.seat.inner.me.1 }
        ensures pass { IsPassOf self.now result × Rests result × (view result ≡ split_off (view first.old)) }
    {
        let inner = self
            .table
            .shared
            .split_seat::<SplitSeat>(&mut first.seat.inner);
        let seat = NumberedSeat { inner, number };
        Pass { seat }
    }

    /// Takes in a pass whose work is done: what both passes have seen is of one history, and the first pass has now
    /// seen the longer part.
    pub fn join(&self, first: &mut Pass<B>, other: Pass<B>)
        requires first { IsPassOf self.now first.old × Rests first.old × (number_of first.old ≡ 1) }
        requires other { IsPassOf self.now other × Rests other }
        ensures joins { Joins first.old other first.new }
        ensures first_seen { IsPrefix (seen first.old) (seen first.new) }
        ensures other_seen { IsPrefix (seen other) (seen first.new) }
    {
        self.join_seats(first, other);
        self.look(first);
    }

    // The first pass takes the longer of what the two have seen, and notes the shorter beside it.
    fn join_seats(&self, first: &mut Pass<B>, other: Pass<B>)
        requires first { IsPassOf self.now first.old × Rests first.old × (number_of first.old ≡ 1) }
        requires other { IsPassOf self.now other × Rests other }
        ensures { Joins first.old other first.new }
    {
        let shared = &self.table.shared;
        shared.join_seat::<JoinSeat>(&mut first.seat.inner, other.into_inner());
    }

    // A look at the word, which changes nothing. The rule tells of what is noted beside.
    fn look(&self, pass: &mut Pass<B>)
        requires { IsPassOf self.now pass.old }
        ensures { Looks pass.old pass.new }
    {
        let shared = &self.table.shared;
        shared.load::<LookStep>(&mut pass.seat.inner, 0);
    }
}

/// Resting until something was added, or began.
///
/// Take the mark first, then look at the value in a turn, and rest where there is nothing to do yet. What was added after
/// the look then ends the rest. A release with `Nothing` does not, so those that only look wake nobody.
impl<B: Keeps> TurnLock<B> {
    /// How many releases so far woke those that rest until something was added. A mark to rest on.
    pub fn mark(&self) -> u64 {
        self.added.mark()
    }

    /// Sleeps until after the mark a release may have added an entry for which somebody waits.
    pub fn rest<R: Wait>(&self, rt: &R, mark: u64) {
        self.added.rest(rt, mark);
    }

    /// How many releases so far woke everybody. A mark to rest on.
    pub fn mark_begun(&self) -> u64 {
        self.begun.mark()
    }

    /// Sleeps until after the mark a release woke everybody: for who has nothing to do before something begins.
    pub fn rest_until_begun<R: Wait>(&self, rt: &R, mark: u64) {
        self.begun.rest(rt, mark);
    }

    // Wakes those that wait for what was added.
    fn wake(&self, wakes: Wakes) {
        if wakes != Wakes::Nobody {
            self.added.ring();
        }
        if wakes == Wakes::Everybody {
            self.begun.ring();
        }
    }
}

/// The steps of a claim and of a release.
impl<B: Keeps> TurnLock<B> {
    ghost use Rattle.std.specs.Prelude.{◌≡◌, ◌++◌, IfOk, IfErr, IfSome};
    ghost use Rattle.trick_turn.specs.Views.{entries_told};
    ghost use Rattle.trick_turn.specs.Passes.{IsPassOf, Rests, Holds, number_of, seen};
    ghost use Rattle.trick_turn.specs.Passes.{Claims, Waits, Misses, PutsBack, IsReady, Releases};

    // One exchange of the word, and the value where the turn was free; else the number that was found.
    pub(crate) fn take_out(&self, pass: &mut Pass<B>) -> Result<B, u64>
        requires own { IsPassOf self.now pass.old }
        requires rests { Rests pass.old }
        ensures got { IfOk result (λ value. Claims B.stands B.seat pass.old pass.new value) }
        ensures busy { IfErr result (λ found. Misses pass.old pass.new found) }
    {
        let shared = &self.table.shared;
        let number = pass.seat.number;
        let found = shared.compare_exchange::<ClaimStep<B>>(&mut pass.seat.inner, 0, FREE, number);
        if found != FREE {
            return Err(found);
        }
        Ok(shared.exchange(&mut pass.seat.inner, 0, None).unwrap())
    }

    // Tries until the turn is free, and sleeps between.
    pub(crate) fn wait<R: Wait>(&self, rt: &R, pass: &mut Pass<B>) -> B
        requires own { IsPassOf self.now pass.old }
        requires rests { Rests pass.old }
        ensures { Waits B.stands B.seat pass.old pass.new result }
    {
        for _ in rt.forever() {
            match self.take_out(pass) {
                Ok(value) => return value,
                Err(_) => self.sleep(rt),
            }
        }
        unreachable!()
    }

    // Sleeps while the word is the number that the last of some looks found. Numbers fit in 32 bits.
    //
    // No wake is lost. `sleepers` is raised before the park, and the park sleeps only while the turn is held. A
    // release frees the turn first and reads `sleepers` after that. So where a park still finds the turn held, the
    // release reads that somebody sleeps, and wakes one. If another one is woken, it claims, and the next release
    // wakes again.
    fn sleep<R: Wait>(&self, rt: &R) {
        let held = self.look_some_times();
        if held != FREE {
            self.sleepers.fetch_add(1, SeqCst);
            self.table.shared.park(rt, 0, low_half(held));
            self.sleepers.fetch_sub(1, SeqCst);
        }
    }

    // The word: free at the first look that finds it so, else what the last look found.
    fn look_some_times(&self) -> u64 {
        let mut found = FREE;
        for _ in 0..LOOKS {
            spin_loop();
            found = self.table.shared.peek(0);
            if found == FREE {
                break;
            }
        }
        found
    }

    // Puts the value back, frees the turn, and wakes one thread that waits for it and those that rest, as `E` says.
    pub(crate) fn release<E: Adds<B::Entry>>(&self, pass: &mut Pass<B>, value: B)
        requires own { IsPassOf self.now pass.old }
        requires holds { Holds pass.old }
        requires names { IfSome E.tells (λ e. B.seat e ≡ number_of pass.old) }
        requires stands { B.stands value (seen pass.old ++ entries_told E.tells) }
        ensures { Releases E.tells pass.old pass.new }
    {
        self.put_back(pass, value);
        self.free::<E>(pass);
        if self.sleepers.load(SeqCst) != 0 {
            self.table.shared.wake_one(0);
        }
        self.wake(E::WAKES);
    }

    // Puts the value back into its slot, which the pass still has.
    fn put_back(&self, pass: &mut Pass<B>, value: B)
        requires own { IsPassOf self.now pass.old }
        requires holds { Holds pass.old }
        ensures { PutsBack pass.old pass.new value }
    {
        let shared = &self.table.shared;
        let taken = shared.exchange(&mut pass.seat.inner, 0, Some(value));
        let None = taken else { unreachable!() };
    }

    // Frees the turn, with the value in its slot.
    fn free<E: Adds<B::Entry>>(&self, pass: &mut Pass<B>)
        requires own { IsPassOf self.now pass.old }
        requires names { IfSome E.tells (λ e. B.seat e ≡ number_of pass.old) }
        requires home { IsReady B.stands E.tells pass.old }
        ensures { Releases E.tells pass.old pass.new }
    {
        let shared = &self.table.shared;
        shared.store::<ReleaseStep<E>>(&mut pass.seat.inner, 0, FREE);
    }
}
