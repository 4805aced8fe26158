//! A turn after its entries were heard.

ghost use Rattle.std.specs.Prelude.{◌≡◌, IfOk, OnOk};
ghost use Rattle.trick_exec_posts.specs.Flight.{AsksNothing, GoesWith};
ghost use Rattle.trick_exec_posts.specs.Stations.{AreStations};
ghost use Rattle.trick_model.specs.PlanOf.{plan_of};
ghost use Rattle.trick_model.specs.State.{seen};
ghost use Rattle.trick_model.specs.Turn.{counted, framed, rounds as rounds_of, run_frame, runs as runs_of};
ghost use Rattle.trick_outside.specs.Does.{Does};
ghost use Rattle.trick_exec_frame.specs.Pass.{IsEquipped, passed};
ghost use Rattle.trick_exec_tic.specs.Current.{asking_of};
ghost use Rattle.trick_exec_tic.specs.Steps.{steps_of};

use crate::Equipment;
use std::alloc::{AllocError, Global};
use std::sync::ledger::Ledger;
use trick_exec_classes::{checkpoint_jobs, freeze_if_asked, run_class};
use trick_exec_files::write_checkpoint;
use trick_exec_posts::{Station, publish_all, start_rounds};
use trick_exec_tic::{Current, Workers, frame};
use trick_lang::{Cells, Class};
use trick_model::{Accepted, Entry, LAST_TURN, State, laws};
use trick_outside::{Shelf, Stop};
use trick_phase_jobs::Phases;
use trick_post_work::Posts;

/// What is left of a turn whose entries were heard: where it is, and the rounds that its frame publishes first.
#[derive(Drop)]
pub struct Rest<'a, M> {
    pub current: Current<M>,
    pub publications: &'a [Entry],
}

// A run frame: the publications, the top_of_frame jobs, the tics, the end_of_frame jobs, and Freeze
// where it was asked for.
fn run_frame<M: Cells + Drop, F: Shelf, H: Phases<M>, P: Posts, L: Ledger>(
    accepted: &Accepted,
    rest: Rest<'_, M>,
    equipment: &mut Equipment<L>,
    shelf: &mut F,
    workers: &mut Workers<H, P>,
) -> Result<Current<M>, Stop>
    requires own { H.is_for workers.old.phases accepted.now.plan }
    requires posts { P.plan workers.old.posts ≡ accepted.now.plan }
    requires equipped { IsEquipped accepted.now.plan equipment.old (P.in_flight workers.old.posts)
        (seen M.numbers rest.current.state) (M.scalars rest.current.state.memory) }
    ensures state { IfOk result (λ after. asking_of M.numbers after
        ≡ (run_frame (plan_of accepted.now.plan) rest.entry.publications.now
        (asking_of M.numbers rest.entry.current)).asking) }
    ensures does { Does F.Shelf shelf.old shelf.new result
        (steps_of (run_frame (plan_of accepted.now.plan) rest.entry.publications.now
        (asking_of M.numbers rest.entry.current)).writes) }
    ensures equipped { IfOk result (λ after. IsEquipped accepted.now.plan equipment.new (P.in_flight workers.new.posts)
        (seen M.numbers after.state) (M.scalars after.state.memory)) }
    ensures own { H.is_for workers.new.phases accepted.now.plan }
    ensures asks { AsksNothing P.Posts workers.old.posts workers.new.posts }
{
    laws::plans_are_sound();
    let plan = accepted.plan();
    let Rest {
        mut current,
        publications,
    } = rest;
    publish_all(
        equipment.course.alloc,
        equipment.course.stations(),
        publications,
        &mut current.state,
        &mut workers.posts,
    );
    run_class(
        plan,
        Class::TopOfFrame,
        &mut current.state,
        &mut equipment.bench,
    );
    frame(
        accepted,
        &mut current,
        &mut equipment.course,
        shelf,
        workers,
    )?;
    run_class(
        plan,
        Class::EndOfFrame,
        &mut current.state,
        &mut equipment.bench,
    );
    freeze_if_asked(
        plan,
        current.asked.freeze,
        &mut current.state,
        &mut equipment.bench,
    );
    Ok(current)
}

// The frame of a turn: a run frame, or in a freeze frame nothing.
fn framed<M: Cells + Drop, F: Shelf, H: Phases<M>, P: Posts, L: Ledger>(
    accepted: &Accepted,
    rest: Rest<'_, M>,
    equipment: &mut Equipment<L>,
    shelf: &mut F,
    workers: &mut Workers<H, P>,
) -> Result<Current<M>, Stop>
    requires own { H.is_for workers.old.phases accepted.now.plan }
    requires posts { P.plan workers.old.posts ≡ accepted.now.plan }
    requires equipped { IsEquipped accepted.now.plan equipment.old (P.in_flight workers.old.posts)
        (seen M.numbers rest.current.state) (M.scalars rest.current.state.memory) }
    ensures state { IfOk result (λ after. asking_of M.numbers after
        ≡ (framed (plan_of accepted.now.plan) (runs_of (seen M.numbers rest.entry.current.state))
        rest.entry.publications.now (asking_of M.numbers rest.entry.current)).asking) }
    ensures does { Does F.Shelf shelf.old shelf.new result
        (steps_of (framed (plan_of accepted.now.plan) (runs_of (seen M.numbers rest.entry.current.state))
        rest.entry.publications.now (asking_of M.numbers rest.entry.current)).writes) }
    ensures equipped { IfOk result (λ after. IsEquipped accepted.now.plan equipment.new (P.in_flight workers.new.posts)
        (seen M.numbers after.state) (M.scalars after.state.memory)) }
    ensures own { H.is_for workers.new.phases accepted.now.plan }
    ensures asks { AsksNothing P.Posts workers.old.posts workers.new.posts }
{
    if !rest.current.state.runs() {
        return Ok(rest.current);
    }
    run_frame(accepted, rest, equipment, shelf, workers)
}

// After a run frame each asynchronous thread that has nothing in flight starts a round.
fn rounds<M: Cells, P: Posts>(
    alloc: Global,
    ran: bool,
    stations: &[Station],
    state: &mut State<M>,
    posts: &mut P,
) -> Result<(), AllocError>
    requires stations { AreStations (plan_of (P.plan posts.old)) stations.now }
    requires goes { GoesWith (P.plan posts.old) (P.in_flight posts.old) state.old.tic (seen M.numbers state.old)
        (M.scalars state.old.memory) }
    ensures state { OnOk result (seen M.numbers state.new
        ≡ rounds_of (plan_of (P.plan posts.old)) ran (seen M.numbers state.old)) }
    ensures goes { OnOk result (GoesWith (P.plan posts.new) (P.in_flight posts.new) state.new.tic
        (seen M.numbers state.new) (M.scalars state.new.memory)) }
    ensures asks { AsksNothing P.Posts posts.old posts.new }
{
    if !ran {
        return Ok(());
    }
    start_rounds(alloc, stations, state, posts)
}

/// Counts the turn.
pub(crate) fn count<M: Cells>(state: &mut State<M>)
    ensures counted { seen M.numbers state.new ≡ counted (seen M.numbers state.old) }
    ensures memory { state.new.memory ≡ state.old.memory }
{
    if state.turn < LAST_TURN {
        state.turn += 1;
    } else {
        state.turn = LAST_TURN;
    }
}

/// The rest of a turn whose entries were heard: its frame, in which the rounds that the entries publish
/// come first, the checkpoint jobs, the rounds that start, its count, and the checkpoint that was asked
/// for. It stops where the shelf failed, or where there was no memory for what is written or for a record
/// that was never filled; the state is gone then.
pub fn pass<M: Cells + Drop, F: Shelf, H: Phases<M>, P: Posts, L: Ledger>(
    accepted: &Accepted,
    rest: Rest<'_, M>,
    equipment: &mut Equipment<L>,
    shelf: &mut F,
    workers: &mut Workers<H, P>,
) -> Result<State<M>, Stop>
    requires own { H.is_for workers.old.phases accepted.now.plan }
    requires posts { P.plan workers.old.posts ≡ accepted.now.plan }
    requires equipped { IsEquipped accepted.now.plan equipment.old (P.in_flight workers.old.posts)
        (seen M.numbers rest.current.state) (M.scalars rest.current.state.memory) }
    ensures state { IfOk result (λ after. seen M.numbers after
        ≡ (passed (plan_of accepted.now.plan) rest.entry.publications.now
        (asking_of M.numbers rest.entry.current)).state) }
    ensures does { Does F.Shelf shelf.old shelf.new result
        (steps_of (passed (plan_of accepted.now.plan) rest.entry.publications.now
        (asking_of M.numbers rest.entry.current)).writes) }
    ensures equipped { IfOk result (λ after. IsEquipped accepted.now.plan equipment.new (P.in_flight workers.new.posts)
        (seen M.numbers after) (M.scalars after.memory)) }
    ensures own { H.is_for workers.new.phases accepted.now.plan }
    ensures asks { AsksNothing P.Posts workers.old.posts workers.new.posts }
{
    laws::plans_are_sound();
    let plan = accepted.plan();
    let alloc = equipment.course.alloc;
    let ran = rest.current.state.runs();
    let current = framed(accepted, rest, equipment, shelf, workers)?;
    let Current { mut state, asked } = current;
    checkpoint_jobs(plan, asked.checkpoint, &mut state, &mut equipment.bench);
    let stations = equipment.course.stations();
    let Ok(()) = rounds(alloc, ran, stations, &mut state, &mut workers.posts) else {
        return Err(Stop::Memory);
    };
    count(&mut state);
    write_checkpoint(alloc, plan, asked.checkpoint, &state, shelf)?;
    Ok(state)
}
