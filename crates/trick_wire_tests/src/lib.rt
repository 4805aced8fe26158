//! Sessions with both ends in threads, to try what the layers over `trick_wire` need: a client whose bytes come one by
//! one, a client that does not read, links that fail, and a caller that does not listen for a while.
#![tactic(auto)]

#[cfg(test)]
mod caller;
#[cfg(test)]
mod held_out;
#[cfg(test)]
mod session;
#[cfg(test)]
mod tests;
