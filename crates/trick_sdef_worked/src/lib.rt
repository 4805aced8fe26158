//! Worked texts of the readers of bodies and of simulation definitions, each with its tree or with the place and
//! the reason of its refusal, as the prover computes them; and for each fact that a tree keeps, trees that just pass its
//! test and such that just fail.
#![tactic(auto)]

pub mod laws;
