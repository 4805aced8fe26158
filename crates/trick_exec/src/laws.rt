//! What `run` does where no client is there. A function that calls one of these may rest on what it says; the call
//! itself does nothing.

ghost use Rattle.trick_exec.specs.Own.{AreAlone, IsAlone, RunsAreAlone, RunsAreOwn};
ghost use Rattle.trick_exec_meaning.specs.Hosts.{hosts, Place};

use trick_exec_sources::{NoTurns, Turns};
use trick_lang::Cells;
use trick_outside::Shelf;
use trick_post_trays::OnePost;
use trick_post_work::Posts;

/// A run whose source gives no entry, and whose posts are ready whenever they are asked, is the one without
/// clients: its journal is its own, and no other.
pub fn runs_alone_are_own<M: Cells, F: Shelf, P: Posts, T: Turns<M>>()
    ensures { RunsAreOwn (hosts F.Shelf T.Turns P.Posts) M.numbers }
{}

/// Where the source and the posts are such at whatever moment, and the source never owes an entry, a run that
/// stopped did a part of the run without clients.
pub fn runs_are_alone<M: Cells, F: Shelf, P: Posts, T: Turns<M>>()
    ensures { RunsAreAlone (hosts F.Shelf T.Turns P.Posts) M.numbers }
{
    trick_model::laws::runs_join();
}

/// The forms of one thread are such: `NoTurns` gives no entry, and `OnePost` is always ready.
pub fn serial_forms_are_alone<M: Cells, F: Shelf>()
    ensures alone { (old new : Place F NoTurns OnePost)
        → IsAlone (hosts F.Shelf ⟦<NoTurns as Turns<M>>⟧ ⟦<OnePost as Posts>⟧) old new }
    ensures always { AreAlone (hosts F.Shelf ⟦<NoTurns as Turns<M>>⟧ ⟦<OnePost as Posts>⟧) }
{}
