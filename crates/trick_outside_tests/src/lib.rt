//! Tests of what reaches the system: a folder of files, standard output, and clients over TCP with both ends in this
//! process. They are tried in a crate of their own, since a test beside the code has the whole crate proved once more.
#![tactic(auto)]

#[cfg(test)]
mod folder;
#[cfg(test)]
mod tcp;
