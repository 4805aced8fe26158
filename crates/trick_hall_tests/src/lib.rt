//! Tests of a hall that three threads drive by calls that wait for nobody. A close gives what one thread makes of the
//! memory.
#![tactic(auto)]

#[cfg(test)]
mod drive;
#[cfg(test)]
mod tests;
