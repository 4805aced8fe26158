//! The served run: the whole run of an accepted plan by threads, with clients. Whatever workers, readers, writers and
//! the acceptor do, it comes to the files of the run on one thread under the lists that the clients gave.
//! `docs/RULES.md` has the rules of a served run and `docs/FORMATS.md` its files.
#![tactic(auto)]

mod by_source;
mod served;
mod serving;
mod tally;
mod workers;

pub use served::serve;
pub use serving::{Service, Serving};
