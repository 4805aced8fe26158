//! That resolving keeps what a body means: what its expressions, statements and calls become does what their text
//! says by names.
#![tactic(auto)]

pub mod laws;
