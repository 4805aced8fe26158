//! Laws of what jobs do, for every file, job and memory. A function that calls one of these laws may rest on what it
//! says; the call itself does nothing.

ghost use Rattle.trick_check_meaning_of_jobs.specs.Example.{HasProgram};
ghost use Rattle.trick_check_meaning_of_jobs.specs.Jobs.{EffectsAreMeant, MethodsKeep, TextsAreMeant, TextsAreReadable};

use trick_check_bodies::laws::{object_law, place_law, tables_law};
use trick_check_cells::laws::{count_law, declared_law, unfold_law};
use trick_check_meaning_kept::laws::tables_keep;
use trick_check_order::laws::one_order_law;
use trick_lang::laws::{block_law, wrap_law};

/// What the block of a method does is what the method's text says.
pub fn methods_keep()
    ensures { MethodsKeep }
{
    wrap_law();
    place_law();
    object_law();
    tables_law();
    tables_keep();
    declared_law();
    unfold_law();
    count_law();
    block_law();
    one_order_law();
}

/// The effect of a job is what its text says.
pub fn effects_are_meant()
    ensures { EffectsAreMeant }
{
    methods_keep();
}

/// No array of a text is without elements, and each loop ends at 1,000,000 at most.
pub fn texts_are_readable()
    ensures { TextsAreReadable }
{}

/// So of each text the effect of each job is what the text says.
pub fn texts_are_meant()
    ensures { TextsAreMeant }
{
    effects_are_meant();
    texts_are_readable();
}

/// A small file keeps what the laws ask, and what its job does is computed from both sides.
pub fn a_file_keeps_what_is_asked()
    ensures { HasProgram }
{}
