//! What lies behind the turn: a place for each thread.

ghost use Rattle.std.specs.List.{slice_index_or};
ghost use Rattle.std.specs.Prelude.{◌≡◌, ◌≢◌, ◌<◌, All, IfOk, false, true, length, map};
ghost use Rattle.trick_post_places.specs.Histories.{fresh};
ghost use Rattle.trick_post_places.specs.Places.{IsPostAt, IsSwapped, PostView, is_ready, pick_of};
ghost use Rattle.trick_post_places.specs.declared.picked.Picked.TheVariants as picked;
ghost use Rattle.trick_post_places.specs.declared.stage.Stage.TheVariants as stage;

use crate::event::Event;
use crate::picked::Picked;
use crate::stage::Stage;
use std::alloc::{AllocError, Global};
use std::marker::{Model, PhantomData};
use std::mem::swap;
use trick_model::{Plan, Planned};
use trick_post_trays::Parcel;
use trick_turn::Keeps;

/// The parcel that lies at a thread's place, and how far the thread's work is.
#[derive(Drop)]
pub struct Place {
    pub parcel: Parcel,
    pub stage: Stage,
}

/// A place for each thread, by its number, and whether the post was shut.
#[derive(Drop)]
pub struct Places<P: Planned> {
    places: Vec<Place>,
    shut: bool,
    of: PhantomData<P>,
}

impl<P: Planned> Model for Places<P> {
    ghost use Rattle.trick_post_places.specs.Places.{PostView};

    ghost Value = { PostView };

    ghost view = { λ post. record { places = post.places.items; shut = post.shut } };
}

impl<P: Planned> Keeps for Places<P> {
    ghost use Rattle.trick_post_places.specs.Histories.{seat_of};
    ghost use Rattle.trick_post_places.specs.Places.{Stands};

    type Entry = Event;

    ghost stands = { Stands P.plan };

    ghost seat = { seat_of };
}

// A place for each of these parcels, where nothing was handed over.
fn idle_places(alloc: Global, parcels: Vec<Parcel>) -> Result<Vec<Place>, AllocError>
    ensures parcels { IfOk result (λ places. map (λ p. p.parcel) places.items ≡ parcels.items) }
    ensures idle { IfOk result (λ places. All (λ p. p.stage ≡ stage.Idle) places.items) }
{
    let mut places = Vec::with_capacity(alloc, parcels.len())?;
    for parcel in parcels {
        places.push(Place {
            parcel,
            stage: Stage::Idle,
        })?;
    }
    Ok(places)
}

impl<P: Planned> Places<P> {
    /// Places where nothing was handed over. This call alone takes memory.
    pub fn new(alloc: Global, plan: &Plan) -> Result<Self, AllocError>
        ensures { IfOk result (IsPostAt plan.now fresh) }
    {
        let parcels = Parcel::all(alloc, plan)?;
        let places = idle_places(alloc, parcels)?;
        Ok(Places {
            places,
            shut: false,
            of: PhantomData,
        })
    }

    /// Swaps a parcel for the one at a thread's place, which has this stage from now on.
    pub fn swap(&mut self, thread: u8, parcel: &mut Parcel, stage: Stage)
        requires { thread < length self.old.places }
        ensures { IsSwapped self.old self.new thread stage parcel.old parcel.new }
    {
        let place = &mut self.places[thread as usize];
        swap(&mut place.parcel, parcel);
        place.stage = stage;
    }

    /// How far the work of a thread is.
    pub fn stage(&self, thread: u8) -> Stage
        requires { thread < length self.now.places }
        ensures { (d : Place) → result ≡ (slice_index_or self.now.places thread d).stage }
    {
        self.places[thread as usize].stage
    }

    /// Whether the work of a thread is ready.
    pub fn is_ready(&self, thread: u8) -> bool
        requires { thread < length self.now.places }
        ensures { (d : Place) → result ≡ is_ready (slice_index_or self.now.places thread d).stage }
    {
        match self.stage(thread) {
            Stage::Ready => true,
            Stage::Idle | Stage::Waiting | Stage::Working => false,
        }
    }

    /// Takes what is ready, for another parcel.
    pub fn finish(&mut self, thread: u8, parcel: &mut Parcel) -> bool
        requires { thread < length self.old.places }
        ensures ready { (d : Place) → result ≡ is_ready (slice_index_or self.old.places thread d).stage }
        ensures taken { result ≡ true → IsSwapped self.old self.new thread stage.Idle parcel.old parcel.new }
        ensures post { result ≡ false → self.new ≡ self.old }
        ensures parcel { result ≡ false → parcel.new ≡ parcel.old }
    {
        let ready = self.is_ready(thread);
        if ready {
            self.swap(thread, parcel, Stage::Idle);
        }
        ready
    }

    /// Takes what waits, for another parcel, where the post is not shut.
    pub fn pick(&mut self, thread: u8, parcel: &mut Parcel) -> Picked
        requires { thread < length self.old.places }
        ensures answer { (d : Place) → result ≡ pick_of self.old.shut (slice_index_or self.old.places thread d).stage }
        ensures got { result ≡ picked.Got → IsSwapped self.old self.new thread stage.Working parcel.old parcel.new }
        ensures post { result ≢ picked.Got → self.new ≡ self.old }
        ensures parcel { result ≢ picked.Got → parcel.new ≡ parcel.old }
    {
        if self.shut {
            return Picked::Shut;
        }
        match self.stage(thread) {
            Stage::Waiting => {
                self.swap(thread, parcel, Stage::Working);
                Picked::Got
            }
            Stage::Idle | Stage::Working | Stage::Ready => Picked::Nothing,
        }
    }

    /// Shuts the post.
    pub fn shut(&mut self)
        ensures { self.new ≡ record { places = self.old.places; shut = true } }
    {
        self.shut = true;
    }
}
