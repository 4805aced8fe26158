//! The work of a must-finish or asynchronous thread: a tray keeps what the thread was handed, and a worker does it and
//! publishes it. The form of one thread does it on the caller's, when it is to be published.
#![tactic(auto)]

mod calendar;
mod lines;
mod one_post;
mod outputs;
mod scratch;
mod tray;
mod worker;
mod write;

pub use calendar::Calendar;
pub use one_post::OnePost;
pub use outputs::{Outputs, Parcel};
pub use scratch::Scratch;
pub use tray::Tray;
pub use worker::Worker;
