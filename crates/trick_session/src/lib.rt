//! Sessions of clients: what a line does to a session, the reply to it, and the samples that are sent.
#![tactic(auto)]

pub mod laws;
mod lines;
mod reply;
mod samples;
mod session;

pub use lines::apply;
pub use reply::Reply;
pub use samples::sample;
pub use session::join;
