//! What is proved of the grammars of bodies and of simulation definitions beside their readers: they have the texts
//! and trees of the productions, which of their refusals come of a limit, and that the next token always decides: where
//! it does not, a grammar fails the test of prediction, and its first conflict is named with its class of tokens.
#![tactic(auto)]

pub mod laws;
