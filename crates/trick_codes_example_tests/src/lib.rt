//! Files that the example of a line file loads and prints, and files that it refuses. They are tried in a crate of their
//! own, since a test beside the code has the whole crate proved once more.
#![tactic(auto)]

#[cfg(test)]
mod tests;
