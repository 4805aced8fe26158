//! A row behind a turn, and two threads that store into it.
ghost use Rattle.std.specs.Prelude.{◌≡◌, Some, None, IsSome};
ghost use Rattle.trick_turn.specs.Passes.{IsSamePass, own};
ghost use Rattle.trick_turn_tests.specs.Histories.{opened_at};

use crate::{Cells, Chief, Hand, Row, Stored, gather, make_hall};
use std::rt::Clock;
use std::snapshot::Snapshot;
use std::sync::atomic::Ordering::SeqCst;
use std::sync::atomic::{AtomicBool, AtomicU64};
use std::sync::{Arc, Wait};
use std::thread;
use std::thread::Promise;
use std::time::Duration;
use trick_turn::Nothing;

/// The turns that each thread takes after the first miss.
const TURNS: u64 = 20_000;

/// Milliseconds in which a thread that waits falls asleep.
const NAP: u64 = 10;

/// A promise to give this hand back.
#[derive(Drop)]
struct SameHand(Snapshot<Hand<Row>>);

impl Promise<Hand<Row>> for SameHand {
    ghost use Rattle.trick_turn.specs.Passes.{IsSamePass};

    ghost kept_by = { λ p r. IsSamePass p.0.value.pass r.pass };
}

/// Opens the board, of which the chief's own entries now say so.
fn open<R: Wait>(rt: &R, chief: &mut Chief<Row>, row: Row)
    requires { opened_at (own chief.old.pass) ≡ None }
    ensures lock { chief.new.lock ≡ chief.old.lock }
    ensures opened { IsSome (opened_at (own chief.new.pass)) }
{
    chief.open(rt, row, &[true, false], 7);
}

/// Stores into a cell as soon as the board is open, and rests until then.
fn store_when_open<R: Wait>(rt: &R, hand: &mut Hand<Row>, cell: usize)
    ensures { IsSamePass hand.old.pass hand.new.pass }
{
    for _ in rt.forever() {
        let mark = hand.lock.mark();
        match hand.store(rt, cell, 0) {
            Stored::Closed => hand.lock.rest(rt, mark),
            _ => return,
        }
    }
}

/// What the two threads tell each other.
#[derive(Drop)]
struct Signals {
    // the second thread is about to try
    is_ready: AtomicBool,
    // the number of the pass that it found to have the turn, or 0
    holder: AtomicU64,
}

fn wait_until_ready<R: Wait>(rt: &R, signals: &Signals) {
    for _ in rt.forever() {
        if signals.is_ready.load(SeqCst) {
            return;
        }
        thread::yield_now();
    }
}

/// Keeps the turn until the other thread has found it held, and then long enough that it falls asleep.
fn keep_turn<R: Wait + Clock>(rt: &R, hand: &mut Hand<Row>, signals: &Signals)
    ensures { IsSamePass hand.old.pass hand.new.pass }
{
    let turn = hand.pass.claim(rt, &hand.lock);
    for _ in rt.forever() {
        let has_missed = signals.holder.load(SeqCst) != 0;
        thread::sleep(rt, Duration::from_millis(NAP));
        if has_missed {
            break;
        }
    }
    turn.release::<Nothing>();
}

/// Tries until the turn is held, and tells by whom.
fn find_held<R: Wait>(rt: &R, hand: &mut Hand<Row>, cell: usize, signals: &Signals)
    ensures { IsSamePass hand.old.pass hand.new.pass }
{
    signals.is_ready.store(true, SeqCst);
    for _ in rt.forever() {
        if let Stored::Busy { found } = hand.try_store(cell, 0) {
            signals.holder.store(found, SeqCst);
            return;
        }
    }
}

/// Stores numbers into one cell, the last of which is `TURNS - 1`.
fn store_all<R: Wait>(rt: &R, hand: &mut Hand<Row>, cell: usize)
    ensures { IsSamePass hand.old.pass hand.new.pass }
{
    for number in 0..TURNS {
        hand.store(rt, cell, number);
    }
}

/// The one hand: keeps the turn, some times while the other sleeps, then stores.
fn work_left<R: Wait + Clock>(rt: &R, mut hand: Hand<Row>, signals: &Signals) -> Hand<Row>
    ensures { IsSamePass hand.pass result.pass }
{
    store_when_open(rt, &mut hand, 0);
    wait_until_ready(rt, signals);
    keep_turn(rt, &mut hand, signals);
    keep_turn(rt, &mut hand, signals);
    keep_turn(rt, &mut hand, signals);
    store_all(rt, &mut hand, 0);
    hand
}

/// The other hand: finds the turn held, then stores, for which it has to wait.
fn work_right<R: Wait>(rt: &R, mut hand: Hand<Row>, signals: &Signals) -> Hand<Row>
    ensures { IsSamePass hand.pass result.pass }
{
    store_when_open(rt, &mut hand, 1);
    find_held(rt, &mut hand, 1, signals);
    store_all(rt, &mut hand, 1);
    hand
}

/// What a hand is answered at a closed board, at an open one, and while another pass has the turn.
fn code(stored: Stored) -> u64 {
    match stored {
        Stored::Done => 0,
        Stored::Closed => 100,
        Stored::Busy { found } => found,
    }
}

#[test]
fn a_close_gives_what_two_threads_stored(rt: HostRuntime) {
    let row = Row {
        items: vec![in rt.alloc(); 10, 20, 30].expect(&rt, "memory"),
    };
    let (mut chief, mut left, right) = make_hall(rt.alloc()).expect(&rt, "memory");
    assert_eq!(rt; code(left.try_store(2, 5)), 100);
    let signals = Signals {
        is_ready: AtomicBool::new(false),
        holder: AtomicU64::new(0),
    };
    let signals = Arc::new(rt.alloc(), signals).expect(&rt, "memory");
    let for_left = Arc::try_clone(&signals).expect(&rt, "memory");
    let for_right = Arc::try_clone(&signals).expect(&rt, "memory");
    let same_left = SameHand(Snapshot::of(&left));
    let same_right = SameHand(Snapshot::of(&right));
    let one = thread::spawn_with(&rt, same_left, move || work_left(&rt, left, &for_left)).expect(
        &rt, "a thread",
    );
    let two = thread::spawn_with(
        &rt,
        same_right,
        move || work_right(&rt, right, &for_right),
    ).expect(&rt, "a thread");
    thread::sleep(&rt, Duration::from_millis(NAP));
    open(&rt, &mut chief, row);
    let mut left = one.join(&rt);
    let right = two.join(&rt);
    assert_eq!(rt; code(left.try_store(2, 6)), 0);
    gather(&mut chief, left, right);
    let row = chief.close(&rt);
    assert_eq!(rt; signals.holder.load(SeqCst), 2);
    assert_eq!(rt; row.items.as_slice(), [TURNS - 1, TURNS - 1, 6].as_slice());
}
