//! What `run` does with its files and with their texts.

ghost use Rattle.std.specs.Arc.{arc_value};
ghost use Rattle.std.specs.Prelude.{◌≡◌};
ghost use Rattle.trick_top_texts.specs.Texts.{IsReady};
ghost use Rattle.trick_serve_seats.specs.Taking.{hosts};
ghost use Rattle.trick_serve.specs.Serving.{moment, outside};
ghost use Rattle.trick_top_alone.specs.Sources.{contents_of, sources_of};
ghost use Rattle.trick_top_alone.specs.Verdict.{verdict_of};
ghost use Rattle.trick_top.specs.Rows.{ServesCommand, ServesTexts};

use crate::runs::{Answer, first, serve_from};
use std::alloc::Global;
use std::sync::{Arc, Wait};
use std::thread::Threads;
use trick_model::Accepted;
use trick_outside::{Door, Gate, Shelf, Spawner};
use trick_serve::Serving;
use trick_top_alone::{Contents, Sources, Verdict, as_sources, read_named, refused};
use trick_top_texts::ready;
use trick_top_words::Texts;

/// A run that does not begin, by this verdict: its door and its spawner are handed back.
fn not_begun<D, S, G, R>(verdict: Verdict<'_>, serving: Serving<D, S, G, R>) -> Answer<'_, D, S>
where
    G: Drop,
    R: Drop,
    ensures told { verdict_of result.verdict ≡ verdict_of verdict.entry }
    ensures door { result.door ≡ serving.door }
    ensures spawner { result.spawner ≡ serving.spawner }
{
    let Serving { door, spawner, .. } = serving;
    Answer {
        verdict,
        door,
        spawner,
    }
}

/// Serves the run of an accepted plan, from its start or from a checkpoint.
fn serve_plan<F: Shelf, D, S, G, R>(
    alloc: Global,
    accepted: &Arc<Accepted, Global>,
    given: Sources,
    serving: Serving<D, S, G, R>,
    shelf: &mut F,
) -> Answer<'static, D, S>
where
    D: Door + Send + Drop + 'static,
    D::In: Send + Drop + 'static,
    D::Out: Send + Drop + 'static,
    S: Spawner + Send + Drop + 'static,
    G: Gate + Send + Sync + Drop + 'static,
    R: Threads + Wait + Copy + Send + Drop + 'static,
    ensures { IsReady (sources_of given.entry).s_define (sources_of given.entry).input (arc_value accepted.now).plan
        → ServesTexts (outside F.Shelf (hosts D.visited D.In.LinkIn D.Out.LinkOut S.failures D.has_client))
        D.failures (sources_of given.entry) (moment shelf.old serving.door serving.spawner)
        (moment shelf.new result.door result.spawner) (verdict_of result.verdict) }
{
    match first(alloc, accepted, given.from) {
        Ok(state) => serve_from(alloc, accepted, state, serving, shelf),
        Err(verdict) => not_begun(verdict, serving),
    }
}

/// Serves the run of an accepted plan, which it shares with whoever works for it.
fn serve_shared<F: Shelf, D, S, G, R>(
    alloc: Global,
    accepted: Accepted,
    given: Sources,
    serving: Serving<D, S, G, R>,
    shelf: &mut F,
) -> Answer<'static, D, S>
where
    D: Door + Send + Drop + 'static,
    D::In: Send + Drop + 'static,
    D::Out: Send + Drop + 'static,
    S: Spawner + Send + Drop + 'static,
    G: Gate + Send + Sync + Drop + 'static,
    R: Threads + Wait + Copy + Send + Drop + 'static,
    ensures { IsReady (sources_of given.entry).s_define (sources_of given.entry).input accepted.plan
        → ServesTexts (outside F.Shelf (hosts D.visited D.In.LinkIn D.Out.LinkOut S.failures D.has_client))
        D.failures (sources_of given.entry) (moment shelf.old serving.door serving.spawner)
        (moment shelf.new result.door result.spawner) (verdict_of result.verdict) }
{
    match Arc::new(alloc, accepted) {
        Ok(accepted) => serve_plan(alloc, &accepted, given, serving, shelf),
        Err(_) => not_begun(Verdict::OutOfMemory, serving),
    }
}

/// Serves the run of the simulation of these texts.
fn serve_texts<F: Shelf, D, S, G, R>(
    alloc: Global,
    given: Sources,
    serving: Serving<D, S, G, R>,
    shelf: &mut F,
) -> Answer<'static, D, S>
where
    D: Door + Send + Drop + 'static,
    D::In: Send + Drop + 'static,
    D::Out: Send + Drop + 'static,
    S: Spawner + Send + Drop + 'static,
    G: Gate + Send + Sync + Drop + 'static,
    R: Threads + Wait + Copy + Send + Drop + 'static,
    ensures { ServesTexts (outside F.Shelf (hosts D.visited D.In.LinkIn D.Out.LinkOut S.failures D.has_client))
        D.failures (sources_of given.entry) (moment shelf.old serving.door serving.spawner)
        (moment shelf.new result.door result.spawner) (verdict_of result.verdict) }
{
    match ready(alloc, given.s_define, given.input) {
        Ok(accepted) => serve_shared(alloc, accepted, given, serving, shelf),
        Err(unready) => not_begun(refused(unready), serving),
    }
}

/// Serves the run of the simulation of the texts that were read.
fn serve_contents<F: Shelf, D, S, G, R>(
    alloc: Global,
    contents: Contents,
    serving: Serving<D, S, G, R>,
    shelf: &mut F,
) -> Answer<'static, D, S>
where
    D: Door + Send + Drop + 'static,
    D::In: Send + Drop + 'static,
    D::Out: Send + Drop + 'static,
    S: Spawner + Send + Drop + 'static,
    G: Gate + Send + Sync + Drop + 'static,
    R: Threads + Wait + Copy + Send + Drop + 'static,
    ensures { ServesTexts (outside F.Shelf (hosts D.visited D.In.LinkIn D.Out.LinkOut S.failures D.has_client))
        D.failures (contents_of contents) (moment shelf.old serving.door serving.spawner)
        (moment shelf.new result.door result.spawner) (verdict_of result.verdict) }
{
    serve_texts(alloc, as_sources(&contents), serving, shelf)
}

/// Serves the run that a command names; its verdict is not printed yet.
pub(crate) fn serve_command<'a, F: Shelf, D, S, G, R>(
    alloc: Global,
    about: &'a Texts,
    serving: Serving<D, S, G, R>,
    shelf: &mut F,
) -> Answer<'a, D, S>
where
    D: Door + Send + Drop + 'static,
    D::In: Send + Drop + 'static,
    D::Out: Send + Drop + 'static,
    S: Spawner + Send + Drop + 'static,
    G: Gate + Send + Sync + Drop + 'static,
    R: Threads + Wait + Copy + Send + Drop + 'static,
    ensures { ServesCommand (outside F.Shelf (hosts D.visited D.In.LinkIn D.Out.LinkOut S.failures D.has_client))
        D.failures about.now (moment shelf.old serving.door serving.spawner) (moment shelf.new result.door result.spawner)
        (verdict_of result.verdict) }
{
    match read_named(alloc, about, shelf) {
        Ok(contents) => serve_contents(alloc, contents, serving, shelf),
        Err(verdict) => not_begun(verdict, serving),
    }
}
