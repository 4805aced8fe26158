//! What calls are made with.

use std::alloc::Global;
use trick_cases_report::Texts;
use trick_model::Plan;

/// The plan of the texts `s_define` and `input`, and all texts.
#[derive(Clone, Copy)]
pub(crate) struct Stage<'s> {
    pub(crate) alloc: Global,
    pub(crate) plan: &'s Plan,
    pub(crate) texts: &'s Texts,
}
