//! What the acceptor has in hand while it takes clients.

ghost use Rattle.std.specs.Prelude.{◌≡◌, ◌↔◌, ◌++◌, ◌∷◌, [], ◌+◌, ◌<◌, ◌≤◌, IsTrue, List, OnOk, vec_capacity, vec_len};
ghost use Rattle.trick_serve_seats.specs.Pairs.{AllFit};
ghost use Rattle.trick_serve_seats.specs.Seats.{IsPast, IsSeated};
ghost use Rattle.trick_serve_seats.specs.Told.{told_end};
ghost use Rattle.trick_wire.specs.Ends.{IsSamePutter, put_by};

use crate::asks::End;
use crate::past::Past;
use crate::seat::Seated;
use crate::{Arrival, Comes};
use std::alloc::{AllocError, Global};
use std::sync::{Arc, Wait};
use std::thread::Threads;
use trick_outside::{LinkIn, LinkOut};
use trick_turn::Bell;
use trick_wire::Putter;

/// The way to the caller: what comes is put there, and the bell is rung after it.
#[derive(Drop)]
pub struct Teller<I, O> {
    pub coming: Putter<Comes<I, O>>,
    pub bell: Arc<Bell>,
}

impl<I: Drop, O: Drop> Teller<I, O> {
    /// Tells the caller, and rests where there is no room.
    pub fn tell<R: Wait>(&mut self, rt: &R, item: Comes<I, O>)
        ensures queue { IsSamePutter self.old.coming self.new.coming }
        ensures put { put_by self.new.coming ≡ put_by self.old.coming ++ item ∷ [] }
    {
        let mut mine = item;
        for _ in rt.forever() {
            let mark = self.coming.mark();
            match self.coming.push(rt, mine) {
                Ok(()) => {
                    self.bell.ring();
                    return;
                }
                Err(back) => mine = back,
            }
            self.coming.rest(rt, mark);
        }
        unreachable!()
    }

    /// Tells the caller why no client comes any more, where it does not know.
    pub fn tell_end<R: Wait>(&mut self, rt: &R, end: End)
        ensures queue { IsSamePutter self.old.coming self.new.coming }
        ensures put { put_by self.new.coming ≡ put_by self.old.coming ++ told_end end }
    {
        match end {
            End::Over => self.tell(rt, Comes::Over),
            End::OutOfMemory => self.tell(rt, Comes::OutOfMemory),
            End::Closed => {}
        }
    }
}

/// What is in hand of each session that was begun, in the order of their numbers, and room for what threads hand back.
#[derive(Drop)]
pub struct Sessions<T, I, O> {
    pub seated: Vec<T>,
    pub past: Vec<Past<I, O>>,
    pub ghost room: { vec_len seated ≤ vec_capacity past },
    pub ghost none: { vec_len past ≡ 0 },
    pub ghost numbers: { vec_len seated ≤ 4294967295 },
}

impl<T: Drop, I: Drop, O: Drop> Sessions<T, I, O> {
    /// No session.
    pub fn new(alloc: Global) -> Sessions<T, I, O>
        ensures { result.seated.items ≡ [] }
    {
        Sessions {
            seated: Vec::new(alloc),
            past: Vec::new(alloc),
        }
    }

    /// Makes room for one more.
    pub fn reserve(&mut self) -> Result<(), AllocError>
        ensures seated { self.new.seated.items ≡ self.old.seated.items }
        ensures room { OnOk result (vec_len self.new.seated + 1 ≤ vec_capacity self.new.past) }
        ensures place { OnOk result (vec_len self.new.seated < vec_capacity self.new.seated) }
    {
        self.seated.reserve(1)?;
        self.past.reserve(self.seated.len().saturating_add(1))?;
        Ok(())
    }

    /// Adds one for which there is room.
    pub fn add(&mut self, seated: T)
        requires room { vec_len self.old.seated + 1 ≤ vec_capacity self.old.past }
        requires place { vec_len self.old.seated < vec_capacity self.old.seated }
        requires number { vec_len self.old.seated < 4294967295 }
        ensures { self.new.seated.items ≡ self.old.seated.items ++ seated ∷ [] }
    {
        self.seated.push_reserved(seated);
    }

    /// Whether the last number was given.
    pub fn is_full(&self) -> bool
        ensures { IsTrue result ↔ (u32.MAX ≤ vec_len self.now.seated) }
    {
        u32::MAX as usize <= self.seated.len()
    }
}

/// Takes the threads of all sessions in.
pub fn take_all_in<
    I: LinkIn + Send + Drop + 'static,
    O: LinkOut + Send + Drop + 'static,
    R: Threads + Wait + Copy + Send + Drop + 'static,
>(rt: &R, sessions: Sessions<Seated<I, O, R>, I, O>) -> Vec<Past<I, O>>
    ensures { (arrivals : List (Arrival I O)) → AllFit (IsSeated I.LinkIn O.LinkOut) arrivals sessions.seated.items
        → AllFit (IsPast I.LinkIn O.LinkOut) arrivals result.items }
{
    let Sessions {
        mut seated,
        mut past,
    } = sessions;
    while let Some(last) = seated.pop() {
        past.push_reserved(last.take_in(rt));
    }
    past.reverse();
    past
}
